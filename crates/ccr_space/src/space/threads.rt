//! All passes side by side.

ghost use Rattle.std.specs.Prelude.{◌≡◌, ◌≤◌, length, All, IfOk};
ghost use Rattle.ccr_base.specs.Bounds.{most_workers};
ghost use Rattle.ccr_wiring.specs.Actors.{actor_count};
ghost use Rattle.ccr_runs.specs.Visible.{visible as shown};
ghost use Rattle.ccr_turns.specs.Locks.{keep_of};
ghost use Rattle.ccr_space.specs.Spaces.{HasPlaces, IsAtRest, IsPassOf};
ghost use Rattle.ccr_space.specs.Closes.{IsBroughtToRest, IsDone, IsRested, IsShownAtRest};

use super::{Closed, Pass, Shown, Space};
use ccr_base::{Gate, List, OutOfMemory};
use ccr_turns::Keep;
use ccr_wiring::Wiring;
use std::alloc::{AllocError, Global};
use std::sync::Wait;
use std::thread;
use std::thread::Threads;

/// Runs all posters and so many workers to rest, each in a thread of its own where one can be made, and closes. The history is what the
/// closed locks tell. What shows nothing there has no place in memory.
pub fn shown_threads<R: Threads + Wait + Sync, G: Gate + Sync>(
    rt: &R,
    alloc: Global,
    wiring: &Wiring,
    workers: u32,
    gate: &G,
) -> Result<Shown, OutOfMemory>
    requires workers { workers ≤ most_workers }
    requires actors { 1 ≤ actor_count wiring.now workers }
    ensures { IfOk result (λ seen. IsShownAtRest wiring.now (actor_count wiring.now workers) seen.history seen.short) }
{
    let (space, passes) = rested_space(rt, alloc, wiring, workers, gate, Keep::Seen)?;
    let seen = space.show(alloc, passes)?;
    Ok(seen)
}

/// The same, with every entry: what shows nothing in the history too.
pub fn closed_threads<R: Threads + Wait + Sync, G: Gate + Sync>(
    rt: &R,
    alloc: Global,
    wiring: &Wiring,
    workers: u32,
    gate: &G,
) -> Result<Closed, OutOfMemory>
    requires workers { workers ≤ most_workers }
    requires actors { 1 ≤ actor_count wiring.now workers }
    ensures threads { IfOk result (λ closed. IsBroughtToRest wiring.now (actor_count wiring.now workers) closed.full.entries closed.short) }
    ensures done { IfOk result (λ closed. IsDone wiring.now (actor_count wiring.now workers) closed.full.entries closed.short) }
    ensures history { IfOk result (λ closed. closed.history ≡ shown closed.full.entries) }
{
    let (space, passes) = rested_space(rt, alloc, wiring, workers, gate, Keep::Every)?;
    let closed = space.close(alloc, passes)?;
    Ok(closed)
}

/// A space of the wiring, whose locks keep so much, and the passes of all its actors, which came to rest in threads.
fn rested_space<'w, R: Threads + Wait + Sync, G: Gate + Sync>(
    rt: &R,
    alloc: Global,
    wiring: &'w Wiring,
    workers: u32,
    gate: &G,
    keep: Keep,
) -> Result<(Space<'w>, List<Pass<'w>>), OutOfMemory>
    requires workers { workers ≤ most_workers }
    requires actors { 1 ≤ actor_count wiring.now workers }
    ensures rested { IfOk result (λ made. IsRested wiring.now (actor_count wiring.now workers) made.0 made.1) }
    ensures keep { IfOk result (λ made. keep_of made.0.turns ≡ keep) }
{
    let (space, passes) = Space::make_with(alloc, wiring, workers, keep)?;
    let passes = space.all_through(rt, gate, passes.into_vec())?;
    Ok((space, List::from_vec(passes)))
}

impl Space<'_> {
    /// Each pass to rest, each in a thread of its own where one can be made.
    pub fn all_through<'p, R: Threads + Wait + Sync, G: Gate + Sync>(
        &self,
        rt: &R,
        gate: &G,
        passes: Vec<Pass<'p>>,
    ) -> Result<Vec<Pass<'p>>, AllocError>
        requires space { HasPlaces self.now }
        requires passes { All (λ pass. IsPassOf self.now pass) passes.items }
        ensures len { IfOk result (λ v. length v.items ≡ length passes.entry.items) }
        ensures passes { IfOk result (λ v. All (λ pass. IsPassOf self.now pass) v.items) }
        ensures rest { IfOk result (λ v. All (λ pass. IsAtRest pass) v.items) }
    {
        let passes = thread::map_vec(
            rt,
            passes,
            &|pass: Pass| -> Pass
                requires { HasPlaces self.now × IsPassOf self.now pass }
                ensures pass { IsPassOf self.entry.now result }
                ensures rest { IsAtRest result }
            { through(rt, gate, self, pass) },
        )?;
        Ok(passes)
    }
}

fn through<'p, R: Wait, G: Gate>(
    rt: &R,
    gate: &G,
    space: &Space<'_>,
    mut pass: Pass<'p>,
) -> Pass<'p>
    requires space { HasPlaces space.now }
    requires pass { IsPassOf space.now pass }
    ensures pass { IsPassOf space.now result }
    ensures rest { IsAtRest result }
{
    space.run(rt, gate, &mut pass);
    pass
}
