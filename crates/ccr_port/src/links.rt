//! The neighbours of a key in a chain.

/// The keys of the neighbours: none before the first, and none behind the last.
#[derive(Clone, Copy)]
pub(crate) struct Link {
    pub before: Option<usize>,
    pub behind: Option<usize>,
}
