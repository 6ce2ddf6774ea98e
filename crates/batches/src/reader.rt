// The reader of a batch: the batch's bytes and a cursor over its rows. Nothing is copied: calls borrow from the bytes.
ghost use Rattle.std.specs.Prelude.{◌≡◌, ◌+◌, ◌*◌, length};

use crate::layout::MOST_CALLS;
use crate::refused::BatchRefusal;
use calls::call::Call;
use calls::judge::{fault, read_row};
use calls::record::Row;
use calls::refusal::RowFault;
use messages::message::Message;
use row::row_in;

mod calls_left;
mod read;
mod row;

pub use calls_left::Calls;
pub use read::read_batch;

#[derive(Clone, Copy)]
pub struct Reader<'a> {
    // one slice and a count: codes and rows lie one behind the other, and the count is what the header says
    batch: &'a [u8],
    count: u16,
    row: u16,
    ghost as_long: { length batch.now ≡ 4 + 25 * count },
}

impl<'a> Reader<'a> {
    ghost use Rattle.batches.specs.Readers.{Found, Next, Opened, calls_left, cursor, left, moved};
    ghost use Rattle.batches.specs.Verdicts.{Says, first_fault};
    ghost use Rattle.calls.specs.Faults.{fault};

    // A reader at the first row, where the batch as a whole has its shape. Rows are not judged yet.
    pub fn new(batch: &'a [u8]) -> Result<Reader<'a>, BatchRefusal>
        ensures { Opened batch.now result }
    {
        if batch.len() < 4 {
            return Err(BatchRefusal::Shape);
        }
        let count = u16::from_le_bytes([batch[0], batch[1]]);
        let width = u16::from_le_bytes([batch[2], batch[3]]);
        if width != 24
            || usize::from(count) > MOST_CALLS
            || batch.len() != 4 + 25 * usize::from(count)
        {
            return Err(BatchRefusal::Shape);
        }
        Ok(Reader {
            batch,
            count,
            row: 0,
        })
    }

    // The row at an index, not judged, or none past the last.
    pub fn row_at(&self, index: u16) -> Option<Row<'a>>
        ensures { Found self.now index result }
    {
        let n = usize::from(self.count);
        let k = usize::from(index);
        if k >= n {
            return None;
        }
        row_in(self.batch[4 + k], &self.batch[4 + n + 24 * k..])
    }

    // The next call, or what is wrong with its row; none past the last. The cursor then stands behind that row.
    pub fn next<M: Message>(&mut self) -> Option<Result<Call<'a>, RowFault>>
        ensures value { Next M.Message.reading (left self.old) result (left self.new) }
        ensures after { self.new ≡ moved self.old result }
    {
        let row = self.row_at(self.row)?;
        self.row += 1;
        Some(read_row::<M>(row))
    }

    // An iterator over the calls that are left.
    pub fn calls<M: Message>(self) -> Calls<'a, M>
        ensures { calls_left result ≡ left self.entry }
    {
        Calls::new(self)
    }

    // Judges the rows from the cursor on: the first bad row, with the least number that it has.
    pub fn judge<M: Message>(&self) -> Result<(), BatchRefusal>
        ensures { Says result (first_fault (fault M.Message.reading) (cursor self.now) (left self.now)) }
    {
        // over a range, since a refusal names the row by its index
        for index in self.row..self.count {
            let Some(row) = self.row_at(index) else {
                return Ok(());
            };
            if let Some(fault) = fault::<M>(row) {
                return Err(BatchRefusal::Row { row: index, fault });
            }
        }
        Ok(())
    }
}
