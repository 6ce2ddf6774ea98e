// The records of a station: its tasks, its blocks, its register of names and its alarms. Each method does to the tables what the plain
// station's definition does to the lists that they stand for.
#![tactic(auto)]

pub mod alarms;
pub mod blocks;
pub mod register;
pub mod tasks;
