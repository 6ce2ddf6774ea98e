// A ready queue as 32 lines, one for each priority, and a word with a bit for each line that is not empty. Whatever is asked of it
// takes the same time, however many tasks are ready.
ghost use Rattle.std.specs.Prelude.{◌≡◌, ◌<◌, []};
ghost use Rattle.ready.specs.MarkLaws;
ghost use Rattle.ready.specs.Order.{listed};
ghost use Rattle.ready.specs.Tables.{IsWhole};

use crate::queue::ReadyQueue;
use crate::task::ReadyTask;
use table::LineTable;

mod table;

// Without equality: two queues with the same line may differ in the links that mean nothing.
#[derive(Clone, Copy, Debug)]
pub struct PriorityLines {
    table: LineTable,
    ghost whole: { IsWhole table },
}

impl PriorityLines {
    ghost use Rattle.ready.specs.PriorityLines.{line_in};

    // An empty queue.
    pub fn new() -> PriorityLines
        ensures { line_in result ≡ [] }
    {
        PriorityLines {
            table: LineTable::empty(),
        }
    }

    fn lists(&self, task: u8) -> bool
        requires { task < 64 }
        ensures { result ≡ listed task (line_in self.now) }
    {
        self.table.marked(task)
    }
}

impl ReadyQueue for PriorityLines {
    ghost use Rattle.ready.specs.PriorityLines.{line_in};

    ghost line = { line_in };

    ghost is_sound = { λ q. q.whole.in_order };

    ghost few = { λ q. MarkLaws.few (line_in q) q.whole.in_order };

    fn reset(&mut self) {
        self.table.clear();
    }

    fn join(&mut self, task: ReadyTask) -> bool {
        // the test of the numbers stands in both builds, as part of what may join: one condition
        if task.task >= 64 || task.priority >= 32 || self.lists(task.task) {
            return false;
        }
        self.table.push(task);
        true
    }

    fn take_best(&mut self) -> Option<ReadyTask> {
        let priority = self.table.best_line()?;
        Some(self.table.pull(priority))
    }

    fn best(&self) -> Option<u8> {
        self.table.best_line()
    }

    fn len(&self) -> u8 {
        self.table.count
    }
}
