// The free list: a chain of links through the free blocks, used as a stack.
ghost use Rattle.std.specs.Prelude.{◌≡◌, ◌≤◌, true, length};
ghost use Rattle.pool.specs.Chains.{chain_marks, walk};
ghost use Rattle.pool.specs.Marks.{free_count};
ghost use Rattle.pool.specs.Numbers.{all_free, distinct};

mod laws;
mod methods;

// No PartialEq: the link of the last free block is not followed, and may differ between lists that hand out the same numbers.
#[derive(Clone, Copy, Debug)]
pub struct FreeList {
    // a number and its limits below, and no `PoolSize`: the lemmas over a pool's fields take the number
    size: u16,
    // the next number to hand out; where there is none, which the count tells, it means nothing and is no Option
    head: u8,
    // how many numbers are free: the length of the chain, whose last link is not followed
    count: u16,
    // for a free block the number of the next, for any other None; the links are numbers, since no heap is used
    next: [Option<u8>; 256],
    ghost nonempty: { 1 ≤ size },
    ghost small: { size ≤ 256 },
    ghost full: { length next ≡ 256 },
    ghost free: { all_free (chain_marks size next) (walk count head next) ≡ true },
    ghost apart: { distinct (walk count head next) ≡ true },
    ghost counted: { count ≡ free_count (chain_marks size next) },
}
