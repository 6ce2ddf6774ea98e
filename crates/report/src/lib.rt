// What a batch means, in words: a line for each call, or what is wrong with the batch.
#![tactic(auto)]

mod explain;
mod lines;
pub mod listing;
pub mod outcome;
pub mod words;
