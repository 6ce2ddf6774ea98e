// Messages and service names: what a message is in eight bytes, the two kinds in use, and which eight bytes are a name.
#![tactic(auto)]

pub mod dock;
pub mod form;
pub mod message;
pub mod name;
