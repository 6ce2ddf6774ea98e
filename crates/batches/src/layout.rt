// The limits of a batch.

// The most calls that a batch holds.
pub const MOST_CALLS: usize = 1024;
