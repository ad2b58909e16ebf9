//! Acts: what the history of a place holds, with the number of the place.

/// What a seat did at a place.
#[derive(Drop)]
pub struct Act<N> {
    pub place: u32,
    pub seat: u32,
    pub stamp: u128,
    pub note: N,
}
