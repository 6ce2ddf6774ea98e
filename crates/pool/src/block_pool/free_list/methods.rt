// The free list as a block pool. Beside the trait's clauses it promises the order: the number that came back last goes out first.
ghost use Rattle.std.specs.Prelude.{◌≡◌, ℕ, ◌+◌, ◌%◌, ◌<◌, ◌≤◌, true, [], ◌∷◌, replicate, slice_index_or};
ghost use Rattle.std.specs.List.{range_with_len};
ghost use Rattle.pool.specs.Marks.{Resets, Returns, Takes};
ghost use Rattle.pool.specs.Orders.{Pops, Pushes, Restarts, list_marks, order};
ghost use Rattle.pool.specs.ChainLaws.{chain_nonempty, chain_small};

use crate::block_pool::BlockPool;
use crate::block_pool::free_list::{FreeList, laws};
use crate::block_pool::size::PoolSize;
use std::array;

// The links of a list that hands out 0, 1, 2 and so on. The last goes round to 0, and is not followed.
fn links() -> [Option<u8>; 256]
    ensures { (k : ℕ) → k < 256 → slice_index_or result k None ≡ Some ((k + 1) % 256) }
{
    array::from_fn(|block| Some((block as u8).wrapping_add(1)))
}

// With every number below the size free, in their order.
fn in_order(size: PoolSize) -> FreeList
    ensures marks { list_marks result ≡ replicate size.size true }
    ensures order { order result ≡ range_with_len 0 size.size }
{
    let next = links();
    laws::fresh(size, &next);
    FreeList {
        size: size.size,
        head: 0,
        count: size.size,
        next,
    }
}

impl FreeList {
    // As after a reset to size 1.
    pub fn new() -> FreeList
        ensures all_free { list_marks result ≡ replicate 1 true }
        ensures order { order result ≡ 0 ∷ [] }
    {
        in_order(PoolSize { size: 1 })
    }
}

impl BlockPool for FreeList {
    ghost marks = { list_marks };

    ghost nonempty = { λ p. chain_nonempty p.size p.next p.nonempty p.small p.full };

    ghost small = { λ p. chain_small p.size p.next p.small p.full };

    // Alike in both builds, and one call each of what makes the build: the limits are in `PoolSize`.
    fn reset(&mut self, size: u16) -> bool
        ensures resets { Resets (list_marks self.old) size result (list_marks self.new) }
        ensures restarts { Restarts (order self.old) size result (order self.new) }
    {
        let Some(size) = PoolSize::new(size) else {
            return false;
        };
        *self = in_order(size);
        true
    }

    #[tactic(auto, using(crate::specs::ChainLaws::emptied))]
    fn take(&mut self) -> Option<u16>
        ensures takes { Takes (list_marks self.old) result (list_marks self.new) }
        ensures pops { Pops (order self.old) result (order self.new) }
    {
        if self.count == 0 {
            return None;
        }
        laws::taking(self);
        let number = self.head;
        // the head is free, and so it has a link
        self.head = self.next[usize::from(number)].take()?;
        self.count -= 1;
        Some(u16::from(number))
    }

    #[tactic(auto, using(crate::specs::ChainLaws::marks_at, crate::specs::ChainLaws::marks_past, crate::specs::ChainLaws::marks_length))]
    fn give_back(&mut self, number: u16) -> bool
        ensures returned { Returns (list_marks self.old) number result (list_marks self.new) }
        ensures pushes { Pushes (order self.old) number result (order self.new) }
    {
        if number >= self.size || self.next[usize::from(number)].is_some() {
            return false;
        }
        laws::giving(self, number);
        self.next[usize::from(number)] = Some(self.head);
        self.head = number as u8;
        self.count += 1;
        true
    }

    fn free_count(&self) -> u16 {
        self.count
    }

    #[tactic(auto, using(crate::specs::ChainLaws::marks_at, crate::specs::ChainLaws::marks_past, crate::specs::ChainLaws::marks_length))]
    fn is_free(&self, number: u16) -> bool {
        number < self.size && self.next[usize::from(number)].is_some()
    }
}
