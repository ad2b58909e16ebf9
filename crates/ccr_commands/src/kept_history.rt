//! The history of a run, kept whole for what looks for tasks in it: the answers to a service's requests.

ghost use Rattle.std.specs.Prelude.{◌≡◌, ◌<◌, ◌≤◌, true, length, All, IfOk, OnOk, IfSome, option_map};
ghost use Rattle.ccr_wiring.specs.Openness.{is_closed};
ghost use Rattle.ccr_base.specs.Bounds.{most_actors, most_workers};
ghost use Rattle.ccr_wiring.specs.Actors.{actor_count};
ghost use Rattle.ccr_model.specs.Firings.{fired};
ghost use Rattle.ccr_model.specs.Legal.{IsLegal, IsQuiet, is_complete};
ghost use Rattle.ccr_model.specs.Order.{most_attempts, next_attempt, IsFinished};
ghost use Rattle.ccr_trace.specs.HistoryText.{history_text};
ghost use Rattle.ccr_trace.specs.Known.{AreShort};
ghost use Rattle.ccr_trace.specs.Values.{HaveSmallValues};
ghost use Rattle.ccr_commands.specs.Accounts.{AccountsForAll};
ghost use Rattle.ccr_opening.specs.Begins.{Begins};

use crate::accounting::complete_histories_account_for_all;
use ccr_actor::actor_count;
use ccr_base::{ActorNo, Gate, List, OutOfMemory};
use ccr_model::History;
use ccr_opening::first_history;
use ccr_serial::Serial;
use ccr_trace::{values_are_small, write_history};
use ccr_wiring::Wiring;
use std::alloc::Global;
use std::snapshot::Snapshot;
use std::sync::Wait;
use std::thread::Threads;

/// The serial order behind a history, to its end, with each event kept.
fn finish(
    alloc: Global,
    wiring: &Wiring,
    closer: ActorNo,
    first: History,
) -> Result<History, OutOfMemory>
    requires closed { is_closed wiring.now ≡ true }
    requires no_poster { length wiring.now.posters ≤ closer }
    requires low { closer ≤ most_actors }
    requires legal { IsLegal wiring.now first }
    requires attempts { next_attempt closer (fired first) ≤ most_attempts }
    ensures finished { IfOk result (IsFinished wiring.now closer first) }
    ensures legal { IfOk result (IsLegal wiring.now) }
    ensures complete { IfOk result (λ history. is_complete wiring.now history ≡ true) }
    ensures quiet { IfOk result (IsQuiet wiring.now) }
{
    match Serial::resume(alloc, wiring, closer, first) {
        Ok(engine) => engine.finish(),
        Err((refused, _)) => Err(refused),
    }
}

/// The history of a run from its beginning to its end, which the serial order makes. Contracts also see the beginning.
pub fn run_history<R: AllocGlobal + Threads + Wait + Sync, G: Gate + Sync>(
    rt: &R,
    gate: &G,
    wiring: &Wiring,
    workers: u32,
    turns: Option<&[ActorNo]>,
) -> Result<(Snapshot<History>, History), OutOfMemory>
    requires closed { is_closed wiring.now ≡ true }
    requires workers { workers ≤ most_workers }
    requires turns { IfSome turns (λ turns. All (λ actor. actor < actor_count wiring.now workers) turns.now) }
    ensures begins { IfOk result (λ made. Begins wiring.now workers (option_map (λ t. t.now) turns.entry) made.0.value) }
    ensures finished { IfOk result (λ made. IsFinished wiring.now (actor_count wiring.now workers) made.0.value made.1) }
    ensures legal { IfOk result (λ made. IsLegal wiring.now made.1) }
    ensures complete { IfOk result (λ made. is_complete wiring.now made.1 ≡ true) }
    ensures quiet { IfOk result (λ made. IsQuiet wiring.now made.1) }
    ensures accounts { IfOk result (λ made. AccountsForAll wiring.now made.1) }
{
    complete_histories_account_for_all();
    // `parts` says that the wiring is valid.
    let _valid = wiring.parts();
    let first = first_history(rt, gate, wiring, workers, turns)?;
    let told = Snapshot::of(&first);
    let history = finish(rt.alloc(), wiring, actor_count(wiring, workers), first)?;
    Ok((told, history))
}

/// The history's text.
pub(crate) fn written_history(
    alloc: Global,
    wiring: &Wiring,
    history: &History,
) -> Result<List<u8>, OutOfMemory>
    ensures text { IfOk result (λ text. text ≡ history_text wiring.now history.now) }
    ensures short { OnOk result (AreShort history.now) }
    ensures small { HaveSmallValues history.now }
{
    values_are_small(history.events());
    write_history(alloc, wiring, history)
}
