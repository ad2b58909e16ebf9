//! How many actors a run has, and whether numbers are of so many.

ghost use Rattle.std.specs.Prelude.{◌≡◌, ◌≤◌, ◌<◌, All, true, false};
ghost use Rattle.ccr_base.specs.Bounds.{most_actors, most_workers};
ghost use Rattle.ccr_wiring.specs.Actors.{actor_count};
ghost use Rattle.ccr_wiring.specs.Valid.{IsValid};

use ccr_base::ActorNo;
use ccr_wiring::{Wiring, valid_wirings_are_sound};

/// The posters and so many workers, which have the numbers behind them. So it is the number of the first actor that is neither.
pub fn actor_count(wiring: &Wiring, workers: u32) -> u32
    requires { workers ≤ most_workers }
    ensures count { result ≡ actor_count wiring.now workers }
    ensures most { result ≤ most_actors }
    ensures valid { IsValid wiring.now }
{
    valid_wirings_are_sound();
    wiring.parts().posters.as_slice().len() as u32 + workers
}

/// Whether each is the number of one of so many actors.
pub fn are_below(actors: &[ActorNo], count: u32) -> bool
    ensures yes { result ≡ true → All (λ actor. actor < count) actors.now }
    ensures no { result ≡ false → All (λ actor. actor < count) actors.now → ⊥ }
{
    actors.iter().all(|actor| *actor < count)
}
