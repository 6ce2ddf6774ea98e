// The tables of the priority lines: for each priority a chain of tasks, linked from its first to its last. No step walks or shifts.
ghost use Rattle.std.specs.Prelude.{◌≡◌, ◌<◌, ◌==◌};
ghost use Rattle.std.specs.Int.{bit_at};
ghost use Rattle.ready.specs.Order.{pair};
ghost use Rattle.ready.specs.Tables.{CanPull, CanPush, IsIdle, best_line, chain_at, pulled, pushed};

use crate::task::ReadyTask;

// The first and the last task mean nothing where there is none, which the length tells: so they are no Options, and two empty chains may differ.
#[derive(Clone, Copy, Debug)]
pub(super) struct Chain {
    first: u8,
    last: u8,
    len: u8,
}

const EMPTY: Chain = Chain {
    first: 0,
    last: 0,
    len: 0,
};

#[derive(Clone, Copy, Debug)]
pub(super) struct LineTable {
    // bit t is set where task t stands in a line
    marks: u64,
    // bit p is set where line p is not empty
    word: u32,
    // how many tasks stand in the lines
    pub(super) count: u8,
    // one chain for each priority, as many as there are: an array
    lines: [Chain; 32],
    // behind each task but a line's last, the next: links by number in fixed memory, since a linked list would need a heap
    next: [u8; 64],
}

impl LineTable {
    pub(super) fn empty() -> LineTable
        ensures { IsIdle result }
    {
        LineTable {
            marks: 0,
            word: 0,
            count: 0,
            lines: [EMPTY; 32],
            next: [0; 64],
        }
    }

    // Empties all lines. What is left in the links means nothing.
    pub(super) fn clear(&mut self)
        ensures idle { IsIdle self.new }
        ensures links { self.new.next ≡ self.old.next }
    {
        self.marks = 0;
        self.word = 0;
        self.count = 0;
        self.lines = [EMPTY; 32];
    }

    pub(super) fn marked(&self, task: u8) -> bool
        requires { task < 64 }
        ensures { result ≡ (bit_at self.now.marks task == 1) }
    {
        (self.marks >> task) & 1 == 1
    }

    // The best priority, or none where all lines are empty.
    pub(super) fn best_line(&self) -> Option<u8>
        ensures { result ≡ best_line self.now }
    {
        if self.word == 0 {
            return None;
        }
        Some(self.word.trailing_zeros() as u8)
    }

    // Puts a task at the end of its line.
    pub(super) fn push(&mut self, ready: ReadyTask)
        requires { CanPush ready self.old }
        ensures { self.new ≡ pushed ready self.old }
    {
        let ReadyTask { task, priority } = ready;
        let line = &mut self.lines[usize::from(priority)];
        if line.len == 0 {
            line.first = task;
        } else {
            self.next[usize::from(line.last)] = task;
        }
        line.last = task;
        line.len += 1;
        self.word |= 1 << priority;
        self.marks |= 1 << task;
        self.count += 1;
    }

    // Takes the first task of a line away.
    pub(super) fn pull(&mut self, priority: u8) -> ReadyTask
        requires { CanPull priority self.old }
        ensures answer { result ≡ pair (chain_at self.old priority).first priority }
        ensures after { self.new ≡ pulled priority self.old }
    {
        let line = &mut self.lines[usize::from(priority)];
        let task = line.first;
        let left = line.len - 1;
        if left == 0 {
            self.word ^= 1 << priority;
        }
        line.first = self.next[usize::from(task)];
        line.len = left;
        self.marks ^= 1 << task;
        self.count -= 1;
        ReadyTask { task, priority }
    }
}
