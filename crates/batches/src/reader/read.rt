// Reading a batch: its shape and all its rows judged, and a reader at the first.
ghost use Rattle.std.specs.Prelude.{◌≡◌, IfOk, OnOk};
ghost use Rattle.batches.specs.Layout.{Sole, batch_records};
ghost use Rattle.batches.specs.Readers.{cursor, left};
ghost use Rattle.batches.specs.Verdicts.{Says, verdict};

use crate::reader::Reader;
use crate::refused::BatchRefusal;
use messages::message::Message;

// A reader at the first row of a batch that is whole and has no bad row; else the batch's refusal.
pub fn read_batch<M: Message>(batch: &[u8]) -> Result<Reader<'_>, BatchRefusal>
    ensures verdict { Says result (verdict M.Message.reading batch.now) }
    ensures left { IfOk result (λ reader. (cursor reader ≡ 0) × (left reader ≡ batch_records batch.now)) }
    ensures only { OnOk result (Sole batch.now) }
{
    let reader = Reader::new(batch)?;
    reader.judge::<M>()?;
    Ok(reader)
}
