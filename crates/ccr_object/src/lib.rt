//! The object of a place: it tests the condition of an ask, and what it does follows from its value and the ask.
#![tactic(auto)]

mod deed;
mod events;
mod laws;
mod making;
mod numbers;
mod object;
mod starting;

pub use deed::{Deed, PlaceAnswer};
pub use laws::places_name_what_they_know;
pub use making::place_objects;
pub use numbers::Numbers;
pub use object::{Object, PlaceObject, Placed};
pub use starting::places_of;
