// A ready queue as one line in running order. It walks and shifts: for few tasks, or to check another by.
ghost use Rattle.std.specs.Prelude.{◌≡◌, true, []};
ghost use Rattle.fixed.specs.FixedVecs.{elements};
ghost use Rattle.ready.specs.MarkLaws;
ghost use Rattle.ready.specs.Order.{listed, sound};
ghost use Rattle.ready.specs.Sorting.{ahead, goes_before};

use crate::queue::ReadyQueue;
use crate::task::ReadyTask;
use fixed::FixedVec;

#[derive(Clone, Copy)]
pub struct SortedLine {
    line: FixedVec<ReadyTask, 64>,
    ghost in_order: { sound (elements line) ≡ true },
}

impl SortedLine {
    ghost use Rattle.ready.specs.SortedLine.{line_in};

    // An empty line.
    pub fn new() -> SortedLine
        ensures { line_in result ≡ [] }
    {
        SortedLine {
            line: FixedVec::new(ReadyTask {
                task: 0,
                priority: 0,
            }),
        }
    }
}

impl ReadyQueue for SortedLine {
    ghost use Rattle.ready.specs.SortedLine.{line_in};

    ghost line = { line_in };

    ghost is_sound = { λ q. q.in_order };

    ghost few = { λ q. MarkLaws.few (line_in q) q.in_order };

    fn reset(&mut self) {
        self.line.clear();
    }

    fn join(&mut self, task: ReadyTask) -> bool {
        // the test of the numbers stands in both builds, as part of what may join: one condition
        let line = self.line.as_slice();
        if task.task >= 64 || task.priority >= 32 || lists(line, task.task) {
            return false;
        }
        let place = place(line, task.priority);
        self.line.insert(place, task);
        true
    }

    fn take_best(&mut self) -> Option<ReadyTask> {
        self.line.remove(0)
    }

    fn best(&self) -> Option<u8> {
        Some(self.line.get(0)?.priority)
    }

    fn len(&self) -> u8 {
        self.line.len() as u8
    }
}

fn lists(line: &[ReadyTask], task: u8) -> bool
    ensures { result ≡ listed task line.now }
{
    line.iter().any(|x| x.task == task)
}

// Equals run in the order in which they joined.
fn runs_before(x: &ReadyTask, priority: u8) -> bool
    ensures { result ≡ goes_before priority x.now }
{
    x.priority <= priority
}

// The place in the line for one that joins.
fn place(line: &[ReadyTask], priority: u8) -> usize
    requires { sound line.now ≡ true }
    ensures { result ≡ ahead priority line.now }
{
    line.partition_point(|x| runs_before(x, priority))
}
