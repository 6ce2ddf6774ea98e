// What the steps of a free list keep true of its chain.
// These functions have no code. Each is called for what it ensures, which the next step needs: so a fault in a step is refused at the step. Tried with
// `using(..)` of the lemma in their place: the proof of the type's invariant does not close.
ghost use Rattle.std.specs.Prelude.{◌≡◌, ℕ, ◌+◌, ◌%◌, ◌<◌, ◌≤◌, false, slice_index_or};
ghost use Rattle.pool.specs.ChainSteps.{Fresh, Giving, Taking};
ghost use Rattle.pool.specs.Marks.{marked};
ghost use Rattle.pool.specs.Orders.{list_marks};

use crate::block_pool::free_list::FreeList;
use crate::block_pool::size::PoolSize;

// Where the count is not 0, the head may be taken.
pub(super) fn taking(list: &FreeList)
    requires { 0 < list.now.count }
    ensures { Taking list.now.size list.now.head list.now.count list.now.next }
{}

// A number that is not free may be put in front.
pub(super) fn giving(list: &FreeList, number: u16)
    requires below { number < list.now.size }
    requires taken { marked (list_marks list.now) number ≡ false }
    ensures { Giving list.now.size list.now.head list.now.count list.now.next number }
{}

// Links that count on from 0 hand out the numbers in their order.
pub(super) fn fresh(size: PoolSize, next: &[Option<u8>; 256])
    requires { (k : ℕ) → k < 256 → slice_index_or next.now k None ≡ Some ((k + 1) % 256) }
    ensures { Fresh size.size next.now }
{}
