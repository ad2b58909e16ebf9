//! Whether everything that was to be posted was posted.

ghost use Rattle.std.specs.Prelude.{◌≡◌};
ghost use Rattle.ccr_model.specs.Legal.{are_whole_from, is_complete};
ghost use Rattle.ccr_checker.specs.LeftInTables.{are_whole_in, is_complete_in};

use ccr_base::ActorNo;
use ccr_ledger::Ledger;
use ccr_model::Event;
use ccr_model::firings::has_shed;
use ccr_model::posts::{posts_of_poster, posts_of_tasks};
use ccr_wiring::{Wiring, valid_wirings_are_sound};

/// Whether each poster that isn't open has made as many posts as its script has.
#[tactic(auto, using(crate::proofs::Numbered::numbered))]
fn are_whole(wiring: &Wiring, events: &[Event]) -> bool
    ensures { result ≡ are_whole_from wiring.now events.now 0 wiring.now.posters }
{
    valid_wirings_are_sound();
    for (number, poster) in wiring.parts().posters.as_slice().iter().enumerate() {
        let made = posts_of_poster(events, number as u32);
        if made != poster.posts.as_slice().len() && wiring.open_poster(number as u32).is_none() {
            return false;
        }
    }
    true
}

/// Whether each poster that isn't open has made its whole script, and the budget is spent where a task was shed.
pub fn is_complete(wiring: &Wiring, events: &[Event]) -> bool
    ensures { result ≡ is_complete wiring.now events.now }
{
    let budget = wiring.parts().budget as usize;
    are_whole(wiring, events) && (!has_shed(events) || posts_of_tasks(events) == budget)
}

/// Whether each poster that isn't open has made as many posts as its script has, by the tables.
#[tactic(auto, using(crate::proofs::Numbered::numbered))]
fn are_whole_in(wiring: &Wiring, ledger: &Ledger) -> bool
    ensures { result ≡ are_whole_in wiring.now ledger.now 0 wiring.now.posters }
{
    valid_wirings_are_sound();
    for (number, poster) in wiring.parts().posters.as_slice().iter().enumerate() {
        let made = ledger.script_posts(number as ActorNo) as usize;
        if made != poster.posts.as_slice().len() && wiring.open_poster(number as u32).is_none() {
            return false;
        }
    }
    true
}

/// The same by the tables, and by whether a task was shed.
pub(crate) fn is_complete_in(wiring: &Wiring, ledger: &Ledger, shed: bool) -> bool
    ensures { result ≡ is_complete_in wiring.now ledger.now shed }
{
    let budget = wiring.parts().budget;
    are_whole_in(wiring, ledger) && (!shed || ledger.task_posts() == budget)
}
