// Batches: a list of calls in bytes, read without copying and written into a lent buffer.
#![tactic(auto)]

pub mod edges;
pub mod layout;
pub mod reader;
pub mod refused;
pub mod writer;
