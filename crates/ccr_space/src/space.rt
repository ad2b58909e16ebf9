//! The locks of all places, and the passes of the actors through them.

use ccr_actor::Actor;
use ccr_object::PlaceObject;
use ccr_runs::Directory;
use ccr_turns::{Seat, Turns};
use ccr_wiring::Wiring;

mod close;
mod make;
mod pausing;
mod showing;
mod step;
mod threads;

pub use close::{Closed, PlaceAndHistory};
pub use showing::Shown;
pub use step::Step;
pub use threads::{closed_threads, shown_threads};

/// The locks, the numbers of the places, and the wiring. A struct with type parameters goes to other threads with no
/// proof file; one over the locks of these objects alone does not.
#[derive(Drop)]
pub struct SpaceOf<T, D, W> {
    turns: T,
    directory: D,
    wiring: W,
}

/// The objects of all places of a wiring, each under its lock.
pub type Space<'w> = SpaceOf<Turns<PlaceObject>, Directory, &'w Wiring>;

/// An actor with its seat at the locks.
#[derive(Drop)]
pub struct PassOf<A, S> {
    actor: A,
    seat: S,
    stopped: bool,
}

/// It may go to another thread.
pub type Pass<'w> = PassOf<Actor<'w>, Seat<PlaceObject>>;
