// A task that is ready to run, with the priority it has.

#[derive(Clone, Copy, PartialEq, Eq, Hash, Debug)]
pub struct ReadyTask {
    // 0 to 63
    pub task: u8,
    // 0 to 31, a smaller number before a larger one
    pub priority: u8,
}
