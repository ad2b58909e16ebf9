//! Closing the space for the history alone: each act is dealt out in its turn, and what shows nothing is left out.

ghost use Rattle.std.specs.Prelude.{◌≡◌, ◌++◌, length, All, IfOk, OnOk, option_to_list};
ghost use Rattle.ccr_space.specs.Spaces.{HasPlaces, IsPassOf, pass_count, stopped_of};
ghost use Rattle.ccr_space.specs.Closes.{IsShownOf};
ghost use Rattle.ccr_space.specs.Shows.{act_shown, acts_shown, note_shown};

use super::close::{seats_of, short_of};
use super::{Pass, Space};
use ccr_base::{ActorNo, List, OutOfMemory};
use ccr_model::{Event, History};
use ccr_object::Deed;
use ccr_runs::{Act, Deal, event_of};
use std::alloc::Global;

/// The history that the closed locks show, and the actors whose passes are stopped.
#[derive(Drop)]
pub struct Shown {
    pub history: History,
    pub short: List<ActorNo>,
}

impl<'w> Space<'w> {
    /// Closes the locks as `close` does, and makes the history alone. What the locks keep in memory is enough for it.
    pub fn show(self, alloc: Global, passes: List<Pass<'w>>) -> Result<Shown, OutOfMemory>
        requires space { HasPlaces self }
        requires passes { All (λ pass. IsPassOf self pass) passes }
        requires all { length passes ≡ pass_count self }
        ensures run { IfOk result (λ seen. IsShownOf self.entry passes.entry seen.history) }
        ensures short { IfOk result (λ seen. seen.short ≡ stopped_of passes.entry (pass_count self.entry)) }
    {
        let passes = passes.into_vec();
        let short = short_of(alloc, passes.as_slice(), passes.len() as u32)?;
        let seats = Vec::with_capacity(alloc, passes.len())?;
        let seats = seats_of(passes, seats);
        let kept = self.unlock(alloc, List::from_vec(seats))?;
        let acts = Deal::of(alloc, kept)?;
        let history = history_of(alloc, acts)?;
        Ok(Shown { history, short })
    }
}

/// What the deed of this actor shows.
fn event_in(actor: ActorNo, deed: Deed) -> Option<Event>
    ensures { option_to_list result ≡ note_shown actor deed.note }
{
    let Deed { note, ask: _ } = deed;
    let note = note?;
    event_of(actor, note)
}

/// What the acts show, one after the other.
fn history_of(alloc: Global, acts: Deal<Deed>) -> Result<History, OutOfMemory>
    ensures { IfOk result (λ history. history ≡ acts_shown acts) }
{
    let mut history = History::new(alloc);
    let mut left = acts;
    'acts: while let Some(act) = left.next() {
        add(&mut history, act)?;
    }
    Ok(history)
}

/// Adds what the act shows.
fn add(history: &mut History, act: Act<Deed>) -> Result<(), OutOfMemory>
    ensures { OnOk result (history.new ≡ history.old ++ act_shown act) }
{
    let Act {
        place: _,
        seat,
        stamp: _,
        note: deed,
    } = act;
    if let Some(event) = event_in(seat, deed) {
        history.append(event)?;
    }
    Ok(())
}
