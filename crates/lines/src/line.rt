// The line at an exchange: a ring of at most 256 numbers, first in, first out. Each step takes the same time, however many stand in it.
// It stays a ring in memory of fixed size, since `VecDeque` needs a heap.
#![tactic(auto, using(std::proofs::lemmas::Grind::common_steps, crate::proofs::RingLaws::rings))]

ghost use Rattle.std.specs.Prelude.{◌≡◌, []};
ghost use Rattle.plain.specs.Lookups.{first_of};
ghost use Rattle.plain.specs.Moves.{behind_first, joins};
ghost use Rattle.lines.specs.Rings.{line_of};

#[derive(Clone, Copy)]
pub(crate) struct Line {
    // the place of the first
    head: u8,
    // how many stand in the line
    len: u16,
    at: [u8; 256],
}

const CAPACITY: u16 = 256;

impl Line {
    // An empty line.
    pub(crate) fn new() -> Line
        ensures { line_of result ≡ [] }
    {
        Line {
            head: 0,
            len: 0,
            at: [0; 256],
        }
    }

    // The first, if any.
    pub(crate) fn first(&self) -> Option<u8>
        ensures { result ≡ first_of (line_of self.now) }
    {
        if self.len == 0 {
            return None;
        }
        Some(self.at[usize::from(self.head)])
    }

    // Puts a number at the end. A full line is left as it is.
    pub(crate) fn push(&mut self, n: u8)
        ensures { line_of self.new ≡ joins n (line_of self.old) }
    {
        if self.len >= CAPACITY {
            return;
        }
        let end = (u16::from(self.head) + self.len) % CAPACITY;
        self.at[usize::from(end)] = n;
        self.len += 1;
    }

    // Removes and answers the first, if any.
    pub(crate) fn pop(&mut self) -> Option<u8>
        ensures answer { result ≡ first_of (line_of self.old) }
        ensures after { line_of self.new ≡ behind_first (line_of self.old) }
    {
        let first = self.first()?;
        self.head = self.head.wrapping_add(1);
        self.len -= 1;
        Some(first)
    }

    // Empties the line. What is left in the ring means nothing.
    pub(crate) fn clear(&mut self)
        ensures { line_of self.new ≡ [] }
    {
        self.len = 0;
    }
}
