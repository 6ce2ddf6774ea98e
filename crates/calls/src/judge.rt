// Judging the row of a call before it is made: its code, its unused fields, its name and its message, in this order.
ghost use Rattle.std.specs.Prelude.{◌≡◌, length, IfNone, OnOk, Some, None, MatchResult};
ghost use Rattle.calls.specs.Calls.{call_record};
ghost use Rattle.calls.specs.Codes.{code_of};
ghost use Rattle.calls.specs.Faults.{all_zero, fault, unused_set};
ghost use Rattle.calls.specs.Records.{Eights, row_record};

use crate::call::Call;
use crate::code::{CallCode, Uses};
use crate::record::Row;
use crate::refusal::RowFault;
use messages::message::Message;
use messages::name::is_service_name;

// Read as one number: one comparison. `*bytes == [0; 8]` was tried: inlined it is some fifteen instructions, and writing a batch takes 1.37 times
// as long; not inlined, 1.64 times. Without the clauses `len`, here and below, the proof does not close: the check knows the length of an array
// that is a parameter, and not of one in a struct.
fn is_zero(bytes: &[u8; 8]) -> bool
    ensures value { result ≡ all_zero bytes.now }
    ensures len { length bytes.now ≡ 8 }
{
    u64::from_le_bytes(*bytes) == 0
}

// Whether one is set. Which one, the words of a refusal look up for themselves: a listing has no use for the field, and a judge none for its name.
fn sets_unused(uses: Uses, row: Row<'_>) -> bool
    ensures value { result ≡ unused_set uses (row_record row.entry) }
    ensures len { Eights (row_record row.entry) }
{
    let no_name = is_zero(row.name);
    let no_message = is_zero(row.message);
    (!uses.n1 && row.n1 != 0)
        || (!uses.n2 && row.n2 != 0)
        || (!uses.n3 && row.n3 != 0)
        || (!uses.name && !no_name)
        || (!uses.message && !no_message)
}

// The row's code, where nothing is wrong with the row; else the least of the refusals 5 to 8 that holds.
fn judge_row<M: Message>(row: Row<'_>) -> Result<CallCode, RowFault>
    ensures value { MatchResult result (λ code. (code_of row.entry.code ≡ Some code) × (fault M.Message.reading (row_record row.entry) ≡ None)) (λ e. fault M.Message.reading (row_record row.entry) ≡ Some e) }
    ensures len { OnOk result (Eights (row_record row.entry)) }
{
    let code = CallCode::try_from(row.code)?;
    let uses = code.uses();
    if sets_unused(uses, row) {
        return Err(RowFault::UnusedField);
    }
    if uses.name && !is_service_name(row.name) {
        return Err(RowFault::BadName);
    }
    if uses.message && M::read(row.message).is_none() {
        return Err(RowFault::BadMessage);
    }
    Ok(code)
}

// What is wrong with the row, or none: a question that cannot fail, so an Option and no Result.
pub fn fault<M: Message>(row: Row<'_>) -> Option<RowFault>
    ensures value { result ≡ fault M.Message.reading (row_record row.entry) }
    ensures len { IfNone result (Eights (row_record row.entry)) }
{
    judge_row::<M>(row).err()
}

// The call of a row, or what is wrong with the row.
pub fn read_row<'a, M: Message>(row: Row<'a>) -> Result<Call<'a>, RowFault>
    ensures { MatchResult result (λ call. (fault M.Message.reading (row_record row.entry) ≡ None) × (call_record call ≡ row_record row.entry)) (λ e. fault M.Message.reading (row_record row.entry) ≡ Some e) }
{
    let code = judge_row::<M>(row)?;
    Ok(Call::from_row(code, row))
}
