// The bitmap: a bit for each block, set where it is free; the lowest free number goes out first.
ghost use Rattle.std.specs.Prelude.{◌≡◌, ℕ, ◌≤◌, false, length};
ghost use Rattle.pool.specs.Marks.{free_count};
ghost use Rattle.pool.specs.Words.{bit_at, word_marks};

mod laws;
mod methods;

#[derive(Clone, Copy, Debug, PartialEq, Eq)]
pub struct Bitmap {
    // a number and its limits below, and no `PoolSize`: the lemmas over a pool's fields take the number
    size: u16,
    // how many bits are set
    count: u16,
    // one bit for each number: this is what a bitmap is
    words: [u64; 4],
    ghost nonempty: { 1 ≤ size },
    ghost small: { size ≤ 256 },
    ghost full: { length words ≡ 4 },
    ghost none_above: { (k : ℕ) → size ≤ k → bit_at words k ≡ false },
    ghost counted: { count ≡ free_count (word_marks size words) },
}
