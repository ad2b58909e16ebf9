//! What a declared name stands for.

/// What a name stands for, with its number among its kind where lines refer to it.
#[derive(Clone, Copy, PartialEq, Eq)]
pub enum Named {
    Queue(u32),
    Port(u32),
    Set(u32),
    Cause(u32),
    Handler(u32),
    Arbiter(u32),
    Branch,
    Poster,
}
