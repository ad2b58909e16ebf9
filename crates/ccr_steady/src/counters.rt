//! Counters that find the flow.

ghost use Rattle.std.specs.Prelude.{◌≡◌, ◌<◌, ◌≤◌, ℕ, ◌+◌, ◌*◌, false, length, map, slice_index, slice_set, IfOk, IfSome, None};
ghost use Rattle.std.specs.List.{list_any};
ghost use Rattle.ccr_base.specs.Bounds.{most_script_posts};
ghost use Rattle.ccr_wiring.specs.Limits.{posts_in_all};
ghost use Rattle.ccr_wiring.specs.Placements.{placement_seen};
ghost use Rattle.ccr_wiring.specs.Wirings.{placements};
ghost use Rattle.ccr_gen.specs.Lines.{lines};
ghost use Rattle.ccr_steady.specs.Flow.{at_port, each, sends, weigh, scripts, slots_of, unsteady};
ghost use Rattle.ccr_steady.specs.Counting.{count_limit, most_firings, is_short, AreStuck, IsReady, IsCounting, HasFlow};
ghost use Rattle.ccr_steady.specs.Agreement.{IsDear};

use ccr_base::{Action, OutOfMemory, Pattern, PortNo, Slot};
use ccr_wiring::{PlacementOf, PosterPart, ScriptPost, Wiring};
use std::alloc::Global;

/// Counts one post to the port.
fn count_post(got: &mut [u64], port: PortNo)
    requires { (index : ℕ) → index < length got.old → slice_index got.old index < count_limit }
    ensures { (index : ℕ) → index < length got.old → slice_index got.new index ≡ slice_index got.old index + at_port index port }
{
    let index = port as usize;
    if index < got.len() {
        got[index] += 1;
    }
}

/// Counts the posts of a script.
fn count_script(got: &mut [u64], posts: &[ScriptPost])
    requires { (index : ℕ) → index < length got.old → slice_index got.old index + length posts.now < count_limit }
    ensures { (index : ℕ) → index < length got.old → slice_index got.new index ≡ slice_index got.old index + lines (at_port index) posts.now }
{
    for post in posts {
        count_post(got, post.port());
    }
}

/// Counts the posts of all scripts.
fn count_scripts(got: &mut [u64], posters: &[PosterPart])
    requires few { posts_in_all posters.now ≤ most_script_posts }
    requires none { (index : ℕ) → index < length got.old → slice_index got.old index ≡ 0 }
    ensures { (index : ℕ) → index < length got.old → slice_index got.new index ≡ scripts (at_port index) posters.now }
{
    for poster in posters {
        count_script(got, poster.posts.as_slice());
    }
}

/// Counts the posts of a firing, and says how many they are.
fn count_firing(got: &mut [u64], actions: &[Action]) -> u64
    requires { (index : ℕ) → index < length got.old → slice_index got.old index + length actions.now < count_limit }
    ensures got { (index : ℕ) → index < length got.old → slice_index got.new index ≡ slice_index got.old index + weigh (at_port index) (sends actions.now) }
    ensures posts { result ≡ weigh each (sends actions.now) }
    ensures few { result ≤ length actions.now }
{
    let mut posts: u64 = 0;
    for action in actions {
        if let Action::Post(port, _) = action {
            count_post(got, *port);
            posts += 1;
        }
    }
    posts
}

/// Whether the slot's port gets too few for one more firing.
fn is_short(got: &[u64], count: u32, slot: &Slot) -> bool
    ensures { result ≡ is_short got.now count slot.now }
{
    let gets = match got.get(slot.port as usize) {
        Some(gets) => *gets,
        None => 0,
    };
    gets < u64::from(slot.least) * (u64::from(count) + 1)
}

fn some_is_short(got: &[u64], count: u32, slots: &[Slot]) -> bool
    ensures { result ≡ list_any (is_short got.now count) slots.now }
{
    slots.iter().any(|slot| is_short(got, count, slot))
}

/// Whether the branch could not fire once more.
fn is_stuck(got: &[u64], count: u32, pattern: &Pattern) -> bool
    ensures { result ≡ list_any (is_short got.now count) (slots_of pattern.now) }
{
    match pattern {
        Pattern::Slots(slots) => some_is_short(got, count, slots.as_slice()),
        Pattern::Gather { .. } => false,
    }
}

/// What each port gets, how often each branch fires, and how many posts tasks make.
#[derive(Drop)]
pub struct Counters {
    pub got: Vec<u64>,
    pub fired: Vec<u32>,
    pub spent: u64,
}

impl Counters {
    /// The first branch that can fire once more.
    pub fn ready(&self, all: &[PlacementOf<'_>]) -> Option<usize>
        requires { length all.now ≡ length self.now.fired.items }
        ensures none { result ≡ None → AreStuck self.now.got.items self.now.fired.items (map placement_seen all.now) }
        ensures some { IfSome result (λ branch. IsReady self.now.got.items self.now.fired.items (map placement_seen all.now) branch) }
    {
        for (branch, found) in all.iter().enumerate() {
            if !is_stuck(&self.got, self.fired[branch], &found.branch.pattern) {
                return Some(branch);
            }
        }
        None
    }

    /// Lets the branch fire once more.
    pub fn fire(&mut self, branch: usize, actions: &[Action])
        requires branch { branch < length self.old.fired.items }
        requires few { slice_index self.old.fired.items branch < most_firings }
        requires got { (index : ℕ) → index < length self.old.got.items → slice_index self.old.got.items index + length actions.now < count_limit }
        requires spent { self.old.spent + length actions.now < count_limit }
        ensures fired { self.new.fired.items ≡ slice_set self.old.fired.items branch (slice_index self.old.fired.items branch + 1) }
        ensures ports { length self.new.got.items ≡ length self.old.got.items }
        ensures got { (index : ℕ) → index < length self.old.got.items → slice_index self.new.got.items index ≡ slice_index self.old.got.items index + weigh (at_port index) (sends actions.now) }
        ensures spent { self.new.spent ≡ self.old.spent + weigh each (sends actions.now) }
    {
        self.fired[branch] += 1;
        self.spent += count_firing(&mut self.got, actions);
    }
}

/// The counters when nothing has fired: each port gets what scripts post to it.
fn start(alloc: Global, wiring: &Wiring, branches: usize) -> Result<Counters, OutOfMemory>
    requires { branches ≡ length (placements wiring.now) }
    ensures counting { IfOk result (λ c. IsCounting wiring.now c.got.items c.fired.items c.spent) }
    ensures spent { IfOk result (λ c. c.spent ≡ 0) }
{
    let parts = wiring.parts();
    let mut got = vec![in alloc; 0; parts.ports.as_slice().len()]?;
    count_scripts(&mut got, parts.posters.as_slice());
    let fired = vec![in alloc; 0; branches]?;
    Ok(Counters {
        got,
        fired,
        spent: 0,
    })
}

/// Counts the flow; none where no closed list stays within the budget.
pub fn find_flow(
    alloc: Global,
    wiring: &Wiring,
    all: &[PlacementOf<'_>],
) -> Result<Option<Counters>, OutOfMemory>
    requires all { map placement_seen all.now ≡ placements wiring.now }
    requires steady { unsteady wiring.now ≡ None }
    ensures none { IfOk result (λ found. found ≡ None → IsDear wiring.now) }
    ensures some { IfOk result (λ found. IfSome found (λ c. HasFlow wiring.now c.got.items c.fired.items c.spent)) }
{
    let budget = u64::from(wiring.parts().budget);
    let mut counters = start(alloc, wiring, all.len())?;
    while let Some(branch) = counters.ready(all) {
        counters.fire(branch, wiring.actions_of(all[branch].branch.handler));
        if counters.spent > budget {
            return Ok(None);
        }
    }
    Ok(Some(counters))
}
