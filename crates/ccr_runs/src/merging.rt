//! The merge of the histories of places.

ghost use Rattle.std.specs.Prelude.{◌≡◌, ℕ, ◌<◌, ◌^◌, ◌++◌, map, length, slice_get, All, IfOk, OnOk, Some};
ghost use Rattle.ccr_turns.specs.Histories.{history_stamps};
ghost use Rattle.ccr_turns.specs.Lists.{Rises};
ghost use Rattle.ccr_runs.specs.Merges.{tagged, tag, history_at, Climbs, act_stamps, IsByPlace};
ghost use Rattle.ccr_runs.specs.Orders.{merged};

use crate::acts::Act;
use ccr_base::{List, OutOfMemory};
use ccr_turns::Held;
use std::alloc::Global;

/// All acts by their stamps, and where stamps are equal by their places. Each place's acts stand in their order.
pub fn merge<O: Drop, N: Drop>(
    alloc: Global,
    kept: List<(O, List<Held<N>>)>,
) -> Result<List<Act<N>>, OutOfMemory>
    requires few { length kept < 2 ^ 32 }
    requires rising { All (λ left. Rises 0 (history_stamps left.1)) kept }
    ensures parts { IfOk result (λ acts. (place : ℕ) (left : O × _) → slice_get kept place ≡ Some left → history_at place acts ≡ left.1) }
    ensures inside { IfOk result (λ acts. All (λ act. act.place < length kept) acts) }
    ensures sorted { IfOk result (λ acts. Climbs 0 (act_stamps acts)) }
    ensures by_place { IfOk result (λ acts. IsByPlace acts) }
    ensures exact { IfOk result (λ acts. acts ≡ merged kept) }
{
    let mut acts = all(alloc, kept.into_vec())?;
    acts.sort_by_cached_key(|act| act.stamp)?;
    Ok(List::from_vec(acts))
}

// How many entries these histories have.
pub(crate) fn count_of<O: Drop, N: Drop>(kept: &[(O, List<Held<N>>)]) -> usize {
    let mut count = 0usize;
    for left in kept {
        count = count.saturating_add(left.1.len());
    }
    count
}

// The acts place by place.
fn all<O: Drop, N: Drop>(
    alloc: Global,
    kept: Vec<(O, List<Held<N>>)>,
) -> Result<Vec<Act<N>>, OutOfMemory>
    requires few { length kept.items < 2 ^ 32 }
    ensures { IfOk result (λ acts. acts.items ≡ tagged 0 kept.items) }
{
    let mut acts = Vec::with_capacity(alloc, count_of(&kept))?;
    let mut place = 0;
    for (_, history) in kept {
        add(&mut acts, place, history.into_vec())?;
        place += 1;
    }
    Ok(acts)
}

fn add<N: Drop>(
    acts: &mut Vec<Act<N>>,
    place: u32,
    history: Vec<Held<N>>,
) -> Result<(), OutOfMemory>
    ensures { OnOk result (acts.new.items ≡ acts.old.items ++ map (tag place) history.items) }
{
    acts.reserve(history.len())?;
    for held in history {
        let Held { seat, stamp, note } = held;
        acts.push_reserved(Act {
            place,
            seat,
            stamp,
            note,
        });
    }
    Ok(())
}
