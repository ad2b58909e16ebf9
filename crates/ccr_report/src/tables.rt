//! The counts of a report, one for each port, spot and queue.

ghost use Rattle.std.specs.Prelude.{◌≡◌, ◌<◌, ℕ, IfOk, length, slice_index};
ghost use Rattle.std.specs.HashMap.{get};
ghost use Rattle.ccr_base.specs.Names.{same_task};
ghost use Rattle.ccr_wiring.specs.Spots.{times};
ghost use Rattle.ccr_model.specs.Posts.{posted, held};
ghost use Rattle.ccr_report.specs.Counting.{dropped_at, branch_queues, queues_by};
ghost use Rattle.ccr_model.specs.Tasks.{put_into};

use crate::messages::{held_ports, posted_ports};
use crate::tally::tally;
use crate::tasks::{branch_queues, queues_of, spots_of_tasks};
use ccr_base::{OutOfMemory, Spot, TaskId};
use ccr_model::Event;
use ccr_model::firings::{dropped, put};
use ccr_model::posts::taken;
use ccr_wiring::Parts;
use std::alloc::Global;
use std::collections::HashMap;

/// How many messages were posted at each port, and how many it holds.
#[derive(Drop)]
pub(crate) struct PortCounts {
    pub posted: Vec<u64>,
    pub held: Vec<u64>,
}

/// How many tasks each queue was given, and how many it dropped.
#[derive(Drop)]
pub(crate) struct QueueCounts {
    pub put: Vec<u64>,
    pub dropped: Vec<u64>,
}

pub(crate) fn port_counts(
    alloc: Global,
    events: &[Event],
    ports: usize,
) -> Result<PortCounts, OutOfMemory>
    ensures posted_len { IfOk result (λ counts. length counts.posted.items ≡ ports) }
    ensures held_len { IfOk result (λ counts. length counts.held.items ≡ ports) }
    ensures posted { IfOk result (λ counts. (k : ℕ) → k < ports → slice_index counts.posted.items k ≡ length (posted events.now k)) }
    ensures held { IfOk result (λ counts. (k : ℕ) → k < ports → slice_index counts.held.items k ≡ length (held events.now k)) }
{
    let taken = taken(alloc, events)?;
    let held = held_ports(alloc, events, &taken)?;
    let posted = posted_ports(alloc, events)?;
    Ok(PortCounts {
        posted: tally(alloc, ports, &posted)?,
        held: tally(alloc, ports, &held)?,
    })
}

pub(crate) fn queue_counts(
    alloc: Global,
    events: &[Event],
    parts: &Parts,
) -> Result<QueueCounts, OutOfMemory>
    ensures put_len { IfOk result (λ counts. length counts.put.items ≡ length parts.now.queues) }
    ensures dropped_len { IfOk result (λ counts. length counts.dropped.items ≡ length parts.now.queues) }
    ensures put { IfOk result (λ counts. (k : ℕ) → k < length parts.now.queues → slice_index counts.put.items k ≡ length (put_into parts.now events.now k)) }
    ensures dropped { IfOk result (λ counts. (k : ℕ) → k < length parts.now.queues → slice_index counts.dropped.items k ≡ length (dropped_at parts.now events.now k)) }
{
    let spots = spots_of_tasks(alloc, events)?;
    let put = put(alloc, events)?;
    let dropped = dropped(alloc, events)?;
    Ok(QueueCounts {
        put: queue_tally(alloc, parts, &spots, &put)?,
        dropped: queue_tally(alloc, parts, &spots, &dropped)?,
    })
}

/// How many of the tasks belong to each queue.
fn queue_tally(
    alloc: Global,
    parts: &Parts,
    spots: &HashMap<TaskId, Spot>,
    tasks: &[TaskId],
) -> Result<Vec<u64>, OutOfMemory>
    ensures len { IfOk result (λ counts. length counts.items ≡ length parts.now.queues) }
    ensures counts { IfOk result (λ counts. (k : ℕ) → k < length parts.now.queues → slice_index counts.items k ≡ times k (queues_by (get same_task spots.now) (branch_queues parts.now) tasks.now)) }
{
    let of_branches = branch_queues(alloc, parts)?;
    let queues = queues_of(alloc, spots, &of_branches, tasks)?;
    let counts = tally(alloc, parts.queues.as_slice().len(), &queues)?;
    Ok(counts)
}
