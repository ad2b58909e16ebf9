//! What a queue does when it is full, and the group of a branch in its arbiter.

ghost use Rattle.std.specs.Prelude.{◌≡◌};
ghost use Rattle.ccr_base.specs.Groups.{is_concurrent, is_teardown};

#[derive(Clone, Copy, PartialEq, Eq)]
pub enum Policy {
    Unbounded,
    /// A put on a queue that holds this many tasks drops the oldest.
    Discard(u32),
    /// A branch fires only while fewer of its queue's tasks than this are on their way or queued.
    Throttle(u32),
}

#[derive(Clone, Copy, PartialEq, Eq)]
pub enum Group {
    Once,
    Always,
    Choice,
    Teardown,
    Exclusive,
    Concurrent,
}

/// Whether a branch of the group is a teardown branch.
pub fn is_teardown(group: Group) -> bool
    ensures { result ≡ is_teardown group }
{
    match group {
        Group::Teardown => true,
        _ => false,
    }
}

/// Whether a branch of the group is a concurrent one.
pub fn is_concurrent(group: Group) -> bool
    ensures { result ≡ is_concurrent group }
{
    match group {
        Group::Concurrent => true,
        _ => false,
    }
}
