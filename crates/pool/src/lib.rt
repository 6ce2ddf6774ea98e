// Block pools: which of a station's block numbers are free, behind one trait, in two builds.
#![tactic(auto)]

pub mod block_pool;
pub mod client;
