// What the listing of an accepted batch came to.

// So many calls were listed, and written back to the same bytes, so many.
#[derive(Clone, Copy, Debug, PartialEq, Eq, Hash)]
pub struct Listed {
    pub calls: usize,
    pub bytes: usize,
}
