// The size of a block pool: 1 to 256, which its type keeps.
ghost use Rattle.std.specs.Prelude.{◌≡◌, ◌<◌, ◌≤◌, IfNone, IfSome};

#[derive(Clone, Copy)]
pub(super) struct PoolSize {
    pub(super) size: u16,
    ghost nonempty: { 1 ≤ size },
    ghost small: { size ≤ 256 },
}

impl PoolSize {
    // The size, or none where it is not 1 to 256. Like the constructors of messages, but the limits are its own.
    pub(super) fn new(size: u16) -> Option<PoolSize>
        ensures value { IfSome result (λ s. s.size ≡ size) }
        ensures none { IfNone result (1 ≤ size → 256 < size) }
    {
        if !(1..=256).contains(&size) {
            return None;
        }
        Some(PoolSize { size })
    }
}
