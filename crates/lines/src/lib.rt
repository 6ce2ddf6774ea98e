// The lines at the exchanges of a station: a FIFO of fixed size for each, with items or waiting tasks. Each method does to the tables what
// the plain station's definition of the same name does to the lists that they stand for.
#![tactic(auto)]

mod exchange;
pub mod exchanges;
mod line;
