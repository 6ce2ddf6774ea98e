// The tables of a station. The pool and the queue are known by their traits alone.
use lines::exchanges::Exchanges;
use ready::task::ReadyTask;
use records::alarms::Alarms;
use records::blocks::Blocks;
use records::register::Register;
use records::tasks::Tasks;

mod moves;
mod opening;

pub struct Tables<P, Q> {
    pub running: Option<ReadyTask>,
    pub pool: P,
    pub queue: Q,
    pub register: Register,
    pub alarms: Alarms,
    pub tasks: Tasks,
    pub blocks: Blocks,
    pub exchanges: Exchanges,
}
