// The listing of a batch: read it, list its calls, write them back and compare; or say why it is refused.
ghost use Rattle.std.specs.Prelude.{◌≡◌, length, Decides, IfOk, None, true};
ghost use Rattle.batches.specs.Layout.{Sole, batch_records};
ghost use Rattle.batches.specs.Readers.{left};
ghost use Rattle.batches.specs.Verdicts.{verdict};
ghost use Rattle.calls.specs.Faults.{fault};
ghost use Rattle.report.specs.Outcomes.{Told};
ghost use Rattle.std.specs.List.{AllByRecursion};

use crate::explain::Explanation;
use crate::lines::CallLine;
use crate::outcome::Listed;
use crate::words::InWords;
use batches::reader::{Reader, read_batch};
use batches::refused::BatchRefusal;
use batches::writer::write_batch;
use calls::record::CallRecord;
use calls::refusal::Refusal;
use std::alloc::AllocError;

// Lists the calls that a reader has left, a line for each at the end of the text, and gives back their records.
fn list_calls<M: InWords>(
    reader: Reader<'_>,
    text: &mut String,
) -> Result<Vec<CallRecord>, AllocError>
    requires { AllByRecursion (λ x. fault M.Message.reading x ≡ None) (left reader) }
    ensures { IfOk result (λ v. v.items ≡ left reader.entry) }
{
    let mut records = Vec::new(*text.allocator());
    for call in reader.calls::<M>() {
        let Ok(call) = call else { unreachable!() };
        let row = records.len();
        writeln!(text, "{row} {}", CallLine::<M>::new(call))?;
        records.push(call.record())?;
    }
    Ok(records)
}

// A name for `==`, with what it decides, which `write_back` cites.
fn same(a: &[u8], b: &[u8]) -> bool
    ensures { Decides result (a.now ≡ b.now) }
{
    a == b
}

// Writes the records of an accepted batch into the buffer, and tells whether they gave the batch's own bytes. It is proved that they do, and
// compared all the same: the program says so to people who need not trust the compilers.
fn write_back<M: InWords>(records: &[CallRecord], batch: &[u8], out: &mut [u8]) -> bool
    requires accepted { verdict M.Message.reading batch.now ≡ None }
    requires only { Sole batch.now }
    requires all { records.now ≡ batch_records batch.now }
    requires room { length out.old ≡ length batch.now }
    ensures bytes { out.new ≡ batch.now }
    ensures same { result ≡ true }
{
    let Ok(bytes) = write_batch::<M>(records, out) else {
        return false;
    };
    bytes == batch.len() && same(out, batch)
}

// Adds to the text what the batch means: a line for each call and one that it was written back, or the refusal in two lines.
pub fn list_batch<M: InWords>(
    batch: &[u8],
    text: &mut String,
) -> Result<Result<Listed, BatchRefusal>, AllocError>
    ensures { IfOk result (Told M.Message.reading batch.now) }
{
    let reader = match read_batch::<M>(batch) {
        Ok(reader) => reader,
        Err(refusal) => {
            tell_refusal::<M>(batch, refusal, text)?;
            return Ok(Err(refusal));
        }
    };
    let records = list_calls::<M>(reader, text)?;
    let mut out = vec![in *text.allocator(); 0u8; batch.len()]?;
    let calls = records.len();
    let bytes = batch.len();
    if write_back::<M>(records.as_slice(), batch, out.as_mut_slice()) {
        writeln!(
            text,
            "{calls} calls, written back to the same {bytes} bytes"
        )?;
    } else {
        // it is proved that this never comes
        writeln!(text, "written back to other bytes")?;
    }
    Ok(Ok(Listed { calls, bytes }))
}

// The refusal's number and row, and in words what is wrong there: two lines of the text, the second by Display.
fn tell_refusal<M: InWords>(
    batch: &[u8],
    refusal: BatchRefusal,
    text: &mut String,
) -> Result<(), AllocError> {
    let number = u8::from(Refusal::from(refusal));
    match refusal.row() {
        Some(row) => writeln!(text, "batch {number} {row}")?,
        None => writeln!(text, "batch {number} -")?,
    }
    writeln!(text, "{}", Explanation::<M>::new(batch, refusal))
}
