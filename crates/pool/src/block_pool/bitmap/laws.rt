// What the steps of a bitmap keep true of its words.
// These functions have no code. Each is called for what it ensures, which the next step needs: so a fault in a step is refused at the step. Tried with
// `using(..)` of the lemma in their place: the proof of the type's invariant does not close.
ghost use Rattle.std.specs.Prelude.{◌≡◌, ℕ, ◌+◌, ◌*◌, ◌<◌, ◌≤◌, false, nat_lt, slice_index};
ghost use Rattle.pool.specs.Bitmaps.{map_marks};
ghost use Rattle.pool.specs.Marks.{marked};
ghost use Rattle.pool.specs.WordSteps.{Full, Giving, Taking};
ghost use Rattle.pool.specs.Words.{FirstSet, bit};

use crate::block_pool::bitmap::Bitmap;
use crate::block_pool::size::PoolSize;

// The lowest number whose bit is set may be taken.
pub(super) fn taking(map: &Bitmap, number: u16)
    requires { FirstSet map.now.words (Some number) }
    ensures { Taking map.now.size map.now.count map.now.words number }
{}

// A number that is not free may be given back.
pub(super) fn giving(map: &Bitmap, number: u16)
    requires below { number < map.now.size }
    requires taken { marked (map_marks map.now) number ≡ false }
    ensures { Giving map.now.size map.now.count map.now.words number }
{}

// Four words, each with its numbers below the size set, have all of them set.
pub(super) fn full(size: PoolSize, words: &[u64; 4])
    requires { (i j : ℕ) → i < 4 → j < 64 → bit (slice_index words.now i) j ≡ nat_lt (64 * i + j) size.size }
    ensures { Full size.size words.now }
{}
