//! What names are declared for.

/// What a name stands for: the operation of this number, or a client.
#[derive(Clone, Copy, PartialEq, Eq)]
pub enum OpOrClient {
    Op(u32),
    Client,
}
