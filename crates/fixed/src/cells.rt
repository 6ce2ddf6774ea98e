// An array in memory of fixed size, in a struct of its own, so that a contract can say what a loan of one of its elements leaves.
ghost use Rattle.std.specs.Prelude.{◌≡◌, ◌<◌, slice_index_or};
ghost use Rattle.std.specs.Borrow.{sem};

#[derive(Clone, Copy, Drop)]
pub(crate) struct Cells<T, const N: usize> {
    pub(crate) xs: [T; N],
}

impl<T, const N: usize> Cells<T, N> {
    ghost use Rattle.fixed.specs.Lending.{lends_at};

    // The element at the place, for writing.
    pub(crate) fn at_mut(&mut self, place: usize) -> &mut T
        requires { place < N }
        ensures* writes_back { sem 𝓛 (lends_at T.row N.row self.entry place result) }
        ensures value { result.now ≡ slice_index_or self.old.xs place result.now }
    {
        &mut self.xs[place]
    }
}
