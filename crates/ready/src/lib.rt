// The ready queue of a station: tasks by priority, best first. The trait, two builds of it, and settling, which is proved over any build.
#![tactic(auto)]

pub mod lines;
pub mod queue;
pub mod settle;
pub mod sorted;
pub mod task;
