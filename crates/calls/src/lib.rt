// The calls of a station as values: the 18 codes, the fields that each uses, a call that borrows its name and message, its record, and the refusals.
#![tactic(auto)]

pub mod call;
pub mod code;
pub mod judge;
pub mod record;
pub mod refusal;
