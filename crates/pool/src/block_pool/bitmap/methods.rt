// The bitmap as a block pool. Beside the trait's clauses it promises that the lowest free number goes out first.
ghost use Rattle.std.specs.Prelude.{◌≡◌, ℕ, ◌+◌, ◌*◌, ◌%◌, ◌^◌, ◌<◌, ◌≤◌, true, replicate, nat_lt};
ghost use Rattle.pool.specs.Bitmaps.{Lowest, map_marks};
ghost use Rattle.pool.specs.Marks.{Takes};
ghost use Rattle.pool.specs.Words.{FirstSet, LowestBit, bit, flipped};
ghost use Rattle.pool.specs.MapLaws.{marks_nonempty, marks_small};

use crate::block_pool::BlockPool;
use crate::block_pool::bitmap::{Bitmap, laws};
use crate::block_pool::size::PoolSize;
use std::array;

// The word of the 64 numbers from 64 times `place` on, with those below the size set.
#[tactic(auto, using(crate::specs::BitLaws::all_below, crate::specs::BitLaws::some_below))]
fn word_below(size: u16, place: u16) -> u64
    requires { place < 4 }
    ensures { (j : ℕ) → j < 64 → bit result j ≡ nat_lt (64 * place + j) size }
{
    let below = size.saturating_sub(64 * place);
    match 1u64.checked_shl(u32::from(below)) {
        Some(above) => above - 1,
        None => u64::MAX,
    }
}

// The place of the lowest bit that is set.
#[tactic(auto, using(crate::specs::BitLaws::lowest_set))]
fn lowest_bit(word: u64) -> u16
    requires { 0 < word }
    ensures below { result < 64 }
    ensures lowest { LowestBit word result }
{
    word.trailing_zeros() as u16
}

// The lowest number whose bit is set, or none where no bit is.
fn lowest(words: &[u64; 4]) -> Option<u16>
    ensures { FirstSet words.now result }
{
    // the word comes with its place: looked up again by the place, a take costs half as much again
    let (place, &word) = words.iter().enumerate().find(|(_, word)| **word != 0)?;
    Some(64 * place as u16 + lowest_bit(word))
}

// The word with the one bit of the number.
fn mask(number: u16) -> u64
    ensures { result ≡ 2 ^ (number % 64) }
{
    1 << (number % 64)
}

// Flips the bit of the number: this clears one that is set, and sets one that is clear.
fn flip(words: &mut [u64; 4], number: u16)
    requires { number < 256 }
    ensures { words.new ≡ flipped words.old number }
{
    words[usize::from(number) / 64] ^= mask(number);
}

// With every number below the size free.
fn all_free(size: PoolSize) -> Bitmap
    ensures { map_marks result ≡ replicate size.size true }
{
    let words = array::from_fn(|place| word_below(size.size, place as u16));
    laws::full(size, &words);
    Bitmap {
        size: size.size,
        count: size.size,
        words,
    }
}

impl Bitmap {
    // As after a reset to size 1.
    pub fn new() -> Bitmap
        ensures { map_marks result ≡ replicate 1 true }
    {
        all_free(PoolSize { size: 1 })
    }
}

impl BlockPool for Bitmap {
    ghost marks = { map_marks };

    ghost nonempty = { λ p. marks_nonempty p.size p.words p.nonempty };

    ghost small = { λ p. marks_small p.size p.words p.small };

    // Alike in both builds, and one call each of what makes the build: the limits are in `PoolSize`.
    fn reset(&mut self, size: u16) -> bool {
        let Some(size) = PoolSize::new(size) else {
            return false;
        };
        *self = all_free(size);
        true
    }

    #[tactic(auto, using(crate::specs::MapLaws::marks_are))]
    fn take(&mut self) -> Option<u16>
        ensures takes { Takes (map_marks self.old) result (map_marks self.new) }
        ensures lowest { Lowest (map_marks self.old) result }
    {
        let first = lowest(&self.words)?;
        laws::taking(self, first);
        flip(&mut self.words, first);
        self.count -= 1;
        Some(first)
    }

    #[tactic(auto, using(crate::specs::MapLaws::marks_are, crate::specs::MapLaws::marks_length))]
    fn give_back(&mut self, number: u16) -> bool {
        if number >= self.size || self.is_free(number) {
            return false;
        }
        laws::giving(self, number);
        flip(&mut self.words, number);
        self.count += 1;
        true
    }

    fn free_count(&self) -> u16 {
        self.count
    }

    #[tactic(auto, using(crate::specs::BitLaws::masked, crate::specs::MapLaws::marks_are, crate::specs::MapLaws::marks_length))]
    fn is_free(&self, number: u16) -> bool {
        number < self.size && self.words[usize::from(number) / 64] & mask(number) != 0
    }
}
