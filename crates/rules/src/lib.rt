// Theorems about the rules of the plain station, of every call on every state. The functions do nothing; their contracts say what holds.
#![tactic(auto)]

pub mod drafting;
pub mod framing;
pub mod refusing;
pub mod rowing;
