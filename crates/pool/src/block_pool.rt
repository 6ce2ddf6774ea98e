// The trait of a block pool: a size of 1 to 256, and which of the numbers below it are free.
ghost use Rattle.std.specs.Prelude.{◌≡◌, ◌≤◌, Bool, List, length};
ghost use Rattle.pool.specs.Marks.{Resets, Returns, Takes, free_count, marked};

pub mod bitmap;
pub mod free_list;
mod size;

// `reset` and `give_back` answer whether they did, as a set's `insert` does: a refusal changes nothing and has one reason, so an error would tell
// no more.
pub trait BlockPool {
    // One mark for each number below the size: true where it is free.
    ghost marks: { Self → List Bool };

    // Takes a size of 1 to 256, with every number below it free. Refuses any other, and changes nothing then.
    fn reset(&mut self, size: u16) -> bool
        ensures resets { Resets (marks self.old) size result (marks self.new) };

    // A free number, which is then no longer free; or none where no number is.
    fn take(&mut self) -> Option<u16>
        ensures takes { Takes (marks self.old) result (marks self.new) };

    // Frees a number below the size that is not free. Refuses any other, and changes nothing then.
    fn give_back(&mut self, number: u16) -> bool
        ensures returned { Returns (marks self.old) number result (marks self.new) };

    fn free_count(&self) -> u16
        ensures counts { result ≡ free_count (marks self.now) };

    fn is_free(&self, number: u16) -> bool
        ensures tells { result ≡ marked (marks self.now) number };

    ghost nonempty: { (p : Self) → 1 ≤ length (marks p) };

    ghost small: { (p : Self) → length (marks p) ≤ 256 };
}
