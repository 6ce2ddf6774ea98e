// The tables that a station is made of, and the moves over them. Each move does to the tables what the plain station's move of the
// same name does to the lists that they stand for. No call is offered here.
#![tactic(auto)]

pub mod item;
mod places;
pub mod tables;
