// A list of at most N elements in memory of fixed size, copied as a whole. `Vec` needs a heap, and neither it nor `ArrayVec` is `Copy`.
#![tactic(auto)]

ghost use Rattle.std.specs.Prelude.{⊤, ◌≡◌, ◌≤◌, [], ◌∷◌, ◌++◌, length, min, nat_le, nat_lt, replicate, slice_get, ◌<◌, slice_index_or, slice_set, insert, remove};
ghost use Rattle.std.specs.Option.{option_copied};
ghost use Rattle.std.specs.List.{IsItemAtMut};
ghost use Rattle.std.specs.Slice.{IsItemAt};
ghost use Rattle.std.specs.Borrow.{sem};

mod cells;

use cells::Cells;
use std::alloc::AllocError;

// Copied by hand, since a struct with a ghost field has no derive of it over a type parameter.
pub struct FixedVec<T, const N: usize> {
    len: usize,
    // the elements, and behind them what is never seen
    cells: Cells<T, N>,
    ghost within: { len ≤ N },
}

impl<T: Copy, const N: usize> Copy for FixedVec<T, N> {}

impl<T: Copy, const N: usize> Clone for FixedVec<T, N> {
    ghost is_clone = { λ v w. w ≡ v };

    ghost is_infallible = { λ _. ⊤ };

    fn clone(&self) -> Result<Self, AllocError> {
        Ok(*self)
    }
}

impl<T: Copy, const N: usize> FixedVec<T, N> {
    ghost use Rattle.fixed.specs.FixedVecs.{elements, with_room};
    ghost use Rattle.fixed.specs.Lends.{lends_get, lends_item};

    // An empty list. The filler stands in the unused places.
    pub fn new(filler: T) -> FixedVec<T, N>
        ensures { elements result ≡ [] }
    {
        FixedVec {
            len: 0,
            cells: Cells { xs: [filler; N] },
        }
    }

    // So many copies of x, at most N.
    #[tactic(auto, using(crate::proofs::FrontLaws::filling))]
    pub fn filled(len: usize, x: T) -> FixedVec<T, N>
        ensures { elements result ≡ replicate (min len N) x }
    {
        FixedVec {
            len: len.min(N),
            cells: Cells { xs: [x; N] },
        }
    }

    pub fn len(&self) -> usize
        ensures value { result ≡ length (elements self.now) }
        ensures within { result ≤ N }
    {
        self.as_slice().len()
    }

    pub fn is_full(&self) -> bool
        ensures { result ≡ nat_le N (length (elements self.now)) }
    {
        self.len >= N
    }

    pub fn as_slice(&self) -> &[T]
        ensures value { result.now ≡ elements self.now }
        ensures within { length result.now ≤ N }
    {
        &self.cells.xs[..self.len]
    }

    pub fn get(&self, place: usize) -> Option<&T>
        ensures value { option_copied result ≡ slice_get (elements self.now) place }
        ensures item { IsItemAt (elements self.now) place result }
    {
        self.as_slice().get(place)
    }

    // Writes x over an element. Past the end nothing changes. By index: with a slice's `get_mut` the proof does not close.
    #[tactic(auto, using(crate::proofs::FrontLaws::writing))]
    pub fn set(&mut self, place: usize, x: T)
        ensures { elements self.new ≡ slice_set (elements self.old) place x }
    {
        if place < self.len {
            self.cells.xs[place] = x;
        }
    }

    // Lends the element at the place.
    fn item_mut(&mut self, place: usize) -> &mut T
        requires { place < length (elements self.old) }
        ensures* writes_back { sem 𝓛 (lends_item T.row N.row self.entry place result) }
        ensures value { result.now ≡ slice_index_or (elements self.old) place result.now }
    {
        self.cells.at_mut(place)
    }

    // The element at the place for writing, if there is one.
    pub fn get_mut(&mut self, place: usize) -> Option<&mut T>
        ensures* writes_back { sem 𝓛 (lends_get T.row N.row self.entry place result) }
        ensures item { IsItemAtMut (elements self.old) place result }
    {
        if place < self.len() {
            Some(self.item_mut(place))
        } else {
            None
        }
    }

    // Puts x behind the others. A full list stays as it was.
    pub fn push(&mut self, x: T)
        ensures { elements self.new ≡ with_room N (elements self.old) (elements self.old ++ x ∷ []) }
    {
        self.insert(N, x);
    }

    // Puts x before the element at the place, or behind all past the end. A full list stays as it was.
    #[tactic(auto, using(std::proofs::lemmas::Grind::common_steps, crate::proofs::FrontLaws::put_in_within))]
    pub fn insert(&mut self, place: usize, x: T)
        ensures { elements self.new ≡ with_room N (elements self.old) (insert (elements self.old) place x) }
    {
        if self.len < N {
            let end = self.len;
            self.cells.xs[end] = x;
            self.len += 1;
            let items = &mut self.cells.xs[..];
            items[place.min(end)..end + 1].rotate_right(1);
        }
    }

    // Takes out the element at the place. Past the end nothing changes.
    #[tactic(auto, using(crate::proofs::FrontLaws::taken_out))]
    pub fn remove(&mut self, place: usize) -> Option<T>
        ensures answer { result ≡ slice_get (elements self.old) place }
        ensures after { elements self.new ≡ remove (elements self.old) place }
    {
        if place >= self.len {
            return None;
        }
        let x = self.cells.xs[place];
        let items = &mut self.cells.xs[..];
        items[place..self.len].rotate_left(1);
        self.len -= 1;
        Some(x)
    }

    pub fn clear(&mut self)
        ensures { elements self.new ≡ [] }
    {
        self.len = 0;
    }
}
