// The trait of a ready queue: a line of tasks by priority, and within a priority in the order in which they joined.
ghost use Rattle.std.specs.Prelude.{◌≡◌, ◌≤◌, true, List, [], length};
ghost use Rattle.ready.specs.Order.{first, first_priority, joined, may_join, rest, sound};
ghost use Rattle.ready.specs.declared.task.ReadyTask.{ReadyTask};

use crate::task::ReadyTask;

pub trait ReadyQueue {
    // The ready tasks, the one to run next in front.
    ghost line: { Self → List ReadyTask };

    // Empties the line.
    fn reset(&mut self)
        ensures { line self.new ≡ [] };

    // Puts the task behind all of the same or a smaller number. No, and nothing changes, exactly where a number is out of range or
    // the task stands in the line. It cannot fail: it says whether the task joined, as HashSet::insert does.
    fn join(&mut self, task: ReadyTask) -> bool
        ensures answer { result ≡ may_join task.task task.priority (line self.old) }
        ensures after { line self.new ≡ joined task.task task.priority (line self.old) };

    // Removes and answers the first, or answers none exactly where the line is empty.
    fn take_best(&mut self) -> Option<ReadyTask>
        ensures answer { result ≡ first (line self.old) }
        ensures after { line self.new ≡ rest (line self.old) };

    // The priority of the first, or none exactly where the line is empty.
    fn best(&self) -> Option<u8>
        ensures { result ≡ first_priority (line self.now) };

    // How many stand in the line.
    fn len(&self) -> u8
        ensures { result ≡ length (line self.now) };

    // Numbers are in range, no task stands twice, and smaller priority numbers stand before larger ones.
    ghost is_sound: { (q : Self) → sound (line q) ≡ true };

    ghost few: { (q : Self) → length (line q) ≤ 64 };
}
