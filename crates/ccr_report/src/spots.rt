//! How often each spot fired.

ghost use Rattle.std.specs.Prelude.{◌≡◌, ◌+◌, ◌-◌, ◌<◌, ◌^◌, [], ◌∷◌, IfOk, OnOk, length, map, unwrap_or, if◌then◌else◌};
ghost use Rattle.std.specs.HashMap.{get};
ghost use Rattle.ccr_base.specs.declared.names.Spot.{Spot as Place};
ghost use Rattle.ccr_base.specs.Names.{same_spot};
ghost use Rattle.ccr_model.specs.Firings.{fired_at};

use ccr_base::{OutOfMemory, Spot};
use ccr_model::Event;
use std::alloc::Global;
use std::collections::HashMap;

/// How often each spot fired, in their order.
pub fn spot_counts(alloc: Global, events: &[Event], spots: &[Spot]) -> Result<Vec<u64>, OutOfMemory>
    ensures { IfOk result (λ counts. counts.items ≡ map (λ spot. length (fired_at events.now spot)) spots.now) }
{
    let fired = firings_at(alloc, events)?;
    let mut counts = Vec::new(alloc);
    for spot in spots {
        counts.push(count_at(&fired, *spot))?;
    }
    Ok(counts)
}

/// How often each spot fired.
fn firings_at(alloc: Global, events: &[Event]) -> Result<HashMap<Spot, u64>, OutOfMemory>
    ensures { IfOk result (λ counts. (spot : Place) → unwrap_or (get same_spot counts spot) 0 ≡ length (fired_at events.now spot)) }
{
    let mut counts = HashMap::new(alloc);
    for event in events {
        count_event(&mut counts, event)?;
    }
    Ok(counts)
}

fn count_event(counts: &mut HashMap<Spot, u64>, event: &Event) -> Result<(), OutOfMemory>
    requires { (spot : Place) → unwrap_or (get same_spot counts.old spot) 0 < 2 ^ 64 - 1 }
    ensures { OnOk result ((spot : Place) → unwrap_or (get same_spot counts.new spot) 0 ≡ unwrap_or (get same_spot counts.old spot) 0 + length (fired_at (event.now ∷ []) spot)) }
{
    match event {
        Event::Fire { spot, .. } => count_spot(counts, *spot),
        _ => Ok(()),
    }
}

fn count_spot(counts: &mut HashMap<Spot, u64>, spot: Spot) -> Result<(), OutOfMemory>
    requires { (other : Place) → unwrap_or (get same_spot counts.old other) 0 < 2 ^ 64 - 1 }
    ensures { OnOk result ((other : Place) → unwrap_or (get same_spot counts.new other) 0 ≡ unwrap_or (get same_spot counts.old other) 0 + (if same_spot spot other then 1 else 0)) }
{
    let count = count_at(counts, spot);
    counts.insert(spot, count + 1)?;
    Ok(())
}

/// How often the spot fired.
fn count_at(counts: &HashMap<Spot, u64>, spot: Spot) -> u64
    ensures { result ≡ unwrap_or (get same_spot counts.now spot) 0 }
{
    counts.get(&spot).copied().unwrap_or(0)
}
