// The writer of a batch: from call records into a lent buffer, which a refusal leaves as it was.
ghost use Rattle.std.specs.Prelude.{◌≡◌, ◌*◌, ◌<◌, ◌≤◌, ◌++◌, map, length, take, IfOk};
ghost use Rattle.batches.specs.Layout.{batch_length, code_byte, row_bytes, written};
ghost use Rattle.batches.specs.Verdicts.{Says, first_fault, write_verdict};
ghost use Rattle.batches.specs.Writing.{Fit, ReadsBack, Wrote};
ghost use Rattle.calls.specs.Faults.{fault};
ghost use Rattle.messages.specs.Bytes.{le2, le4};
ghost use Rattle.std.specs.List.{flat_map, AllByRecursion};

use crate::layout::MOST_CALLS;
use crate::refused::BatchRefusal;
use calls::judge::fault;
use calls::record::CallRecord;
use messages::message::Message;

// Writes the records as a batch at the front of the buffer, and answers its length; the bytes after it stay.
// What was written reads back as these records. A refusal leaves the buffer as it was.
pub fn write_batch<M: Message>(
    records: &[CallRecord],
    out: &mut [u8],
) -> Result<usize, BatchRefusal>
    ensures verdict { Says result (write_verdict M.Message.reading records.now (length out.old)) }
    ensures after { Wrote records.now out.old result out.new }
    ensures reads_back { IfOk result (λ n. ReadsBack M.Message.reading records.now (take n out.new)) }
{
    let n = records.len();
    if n > MOST_CALLS {
        return Err(BatchRefusal::Shape);
    }
    let length = 4 + 25 * n;
    if out.len() < length {
        return Err(BatchRefusal::ShortBuffer);
    }
    judge_records::<M>(records)?;
    write_all(records, &mut out[0..length]);
    Ok(length)
}

// The eight bytes of a row's three numbers.
// The three numbers of a row, which are fields of `CallRecord`: that is the struct. Without the clauses `fit`, here and below, the proof does not close: the check knows the range of a number that is a parameter, and not of one in a
// struct.
fn numbers(n1: u16, n2: u16, n3: u32) -> [u8; 8]
    ensures value { result ≡ le2 n1 ++ (le2 n2 ++ le4 n3) }
    ensures fit { (n1 < 65536) × (n2 < 65536) × (n3 < 4294967296) }
{
    let a = n1.to_le_bytes();
    let b = n2.to_le_bytes();
    let c = n3.to_le_bytes();
    [a[0], a[1], b[0], b[1], c[0], c[1], c[2], c[3]]
}

fn write_row(call: &CallRecord, out: &mut [u8])
    requires { length out.old ≡ 24 }
    ensures after { out.new ≡ row_bytes call.now }
    ensures fit { Fit call.now }
{
    out[0..8].copy_from_slice(&numbers(call.n1, call.n2, call.n3));
    out[8..16].copy_from_slice(&call.name);
    out[16..24].copy_from_slice(&call.message);
}

// By index in this loop and the next: with `out.iter_mut().zip(records)` the proof does not close, since after an adapter of `iter_mut` nothing is
// known of what was written.
fn write_codes(records: &[CallRecord], out: &mut [u8])
    requires { length out.old ≡ length records.now }
    ensures { out.new ≡ map code_byte records.now }
{
    for (k, call) in records.iter().enumerate() {
        out[k] = call.code;
    }
}

fn write_rows(records: &[CallRecord], out: &mut [u8])
    requires { length out.old ≡ 24 * length records.now }
    ensures after { out.new ≡ flat_map row_bytes records.now }
    ensures fit { AllByRecursion Fit records.now }
{
    for (k, call) in records.iter().enumerate() {
        write_row(call, &mut out[24 * k..24 * k + 24]);
    }
}

fn write_all(records: &[CallRecord], out: &mut [u8])
    requires few { length records.now ≤ 1024 }
    requires room { length out.old ≡ batch_length (length records.now) }
    ensures after { out.new ≡ written records.now }
    ensures fit { AllByRecursion Fit records.now }
{
    let n = records.len();
    let count = (n as u16).to_le_bytes();
    out[0..4].copy_from_slice(&[count[0], count[1], 24, 0]);
    write_codes(records, &mut out[4..4 + n]);
    write_rows(records, &mut out[4 + n..4 + 25 * n]);
}

fn judge_records<M: Message>(records: &[CallRecord]) -> Result<(), BatchRefusal>
    requires { length records.now ≤ 1024 }
    ensures { Says result (first_fault (fault M.Message.reading) 0 records.now) }
{
    for (k, call) in records.iter().enumerate() {
        if let Some(fault) = fault::<M>(call.row()) {
            return Err(BatchRefusal::Row {
                row: k as u16,
                fault,
            });
        }
    }
    Ok(())
}
