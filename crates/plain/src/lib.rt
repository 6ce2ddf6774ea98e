// The plain station: what its records are (here) and how each of the 18 calls answers and moves it (specs/). No call is offered here.
#![tactic(auto)]

pub mod answer;
pub mod records;
