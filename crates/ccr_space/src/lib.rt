//! The locks of all places of a wiring, the passes of its actors through them, and the run that the closed locks tell.
#![tactic(auto)]

mod space;

pub use space::{
    Closed, Pass, PassOf, PlaceAndHistory, Shown, Space, SpaceOf, Step, closed_threads,
    shown_threads,
};
