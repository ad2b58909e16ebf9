//! Numbers that grow event by event. Each event makes of them what it is, and takes no memory.

ghost use Rattle.std.specs.Prelude.{◌≡◌, ◌<◌, ◌-◌, ◌^◌, List as Listed, IfOk};
ghost use Rattle.std.specs.Option.{option_map_or};
ghost use Rattle.ccr_wiring.specs.declared.parts.Parts.{Parts};
ghost use Rattle.ccr_model.specs.declared.history.Event.{Event as SomeEvent};
ghost use Rattle.ccr_ledger.specs.Books.{more, number};
ghost use Rattle.ccr_telling.specs.Tallies.{CountsNext, FitOneMore, EventFits, WhereFireFits, after_end, after_event, after_fire, after_post, after_put, more_at, more_for, no_tallies, index_of};

use ccr_base::{MsgId, OutOfMemory, PortNo, Spot, TaskId};
use ccr_laws::valid_histories_are_short;
use ccr_ledger::Ledger;
use ccr_model::{EndHow, Event};
use ccr_wiring::MAX_ACTIONS;
use std::alloc::Global;
use std::marker::Model;

/// The indices of a branch: its own, and one for each site that it can have.
const INDICES_EACH: usize = 17;
/// As many as the branches of a wiring have, of which there are at most 256.
pub(crate) const ALL_INDICES: usize = 4352;

/// What happened how often in a history.
#[derive(Drop)]
pub struct Tally {
    /// How many messages were posted at each port.
    pub(crate) posted: Vec<u64>,
    /// How many tasks fired at the index of each spot.
    fired: Vec<u64>,
    /// How many tasks were put into each queue, and how many it dropped.
    pub(crate) put: Vec<u64>,
    pub(crate) dropped: Vec<u64>,
    pub(crate) posts: u64,
    /// The messages that firings took.
    pub(crate) taken: u64,
    pub(crate) firings: u64,
    pub(crate) cut: u64,
    pub(crate) drops: u64,
    pub(crate) done: u64,
    pub(crate) failed: u64,
    pub(crate) shed: u64,
    pub(crate) yielded: u64,
}

impl Model for Tally {
    ghost use Rattle.ccr_telling.specs.Tallies.{Tallies};

    ghost Value = { Tallies };

    ghost view = { λ t. record {
      posted = t.posted.items;
      fired = t.fired.items;
      put = t.put.items;
      dropped = t.dropped.items;
      posts = t.posts;
      taken = t.taken;
      firings = t.firings;
      cut = t.cut;
      drops = t.drops;
      done = t.done;
      failed = t.failed;
      shed = t.shed;
      yielded = t.yielded;
    } };
}

/// The index of the spot; none for a site past the sixteenth, which no wiring has.
fn index_of(spot: Spot) -> Option<usize>
    ensures { result ≡ index_of spot }
{
    match spot {
        Spot::Branch(branch) => Some(branch as usize * INDICES_EACH),
        Spot::Site(branch, site) => {
            if (site as usize) < MAX_ACTIONS {
                Some(branch as usize * INDICES_EACH + (site as usize + 1))
            } else {
                None
            }
        }
    }
}

/// One more at the index, where it fits. There is none past the last.
fn add_one(numbers: &mut Vec<u64>, index: usize)
    ensures { number numbers.old.items index < 2 ^ 64 - 1 → numbers.new.items ≡ more index numbers.old.items }
{
    if index < numbers.len() {
        numbers[index] = numbers[index].saturating_add(1);
    }
}

/// One more at the index of the spot.
fn add_spot(numbers: &mut Vec<u64>, spot: Spot)
    ensures { FitOneMore numbers.old.items → numbers.new.items ≡ more_at (index_of spot) numbers.old.items }
{
    if let Some(index) = index_of(spot) {
        add_one(numbers, index);
    }
}

/// One more for the queue of the task.
fn add_task(numbers: &mut Vec<u64>, ledger: &Ledger, task: TaskId)
    ensures { FitOneMore numbers.old.items → numbers.new.items ≡ more_for ledger.now task numbers.old.items }
{
    if let Some(card) = ledger.card(task) {
        add_one(numbers, card.queue as usize);
    }
}

impl Tally {
    /// Nothing was counted yet.
    pub(crate) fn new(
        alloc: Global,
        ports: usize,
        indices: usize,
        queues: usize,
    ) -> Result<Self, OutOfMemory>
        ensures { IfOk result (λ tally. tally ≡ no_tallies ports indices queues) }
    {
        Ok(Tally {
            posted: Vec::from_elem(alloc, 0, ports)?,
            fired: Vec::from_elem(alloc, 0, indices)?,
            put: Vec::from_elem(alloc, 0, queues)?,
            dropped: Vec::from_elem(alloc, 0, queues)?,
            posts: 0,
            taken: 0,
            firings: 0,
            cut: 0,
            drops: 0,
            done: 0,
            failed: 0,
            shed: 0,
            yielded: 0,
        })
    }

    /// What was counted at each port, and what each queue was given and dropped.
    pub(crate) fn into_lists(self) -> (Vec<u64>, Vec<u64>, Vec<u64>)
        ensures posted { result.0.items ≡ self.posted }
        ensures put { result.1.items ≡ self.put }
        ensures dropped { result.2.items ≡ self.dropped }
    {
        let Tally {
            posted,
            put,
            dropped,
            ..
        } = self;
        (posted, put, dropped)
    }

    /// How many tasks fired at the spot.
    pub(crate) fn fired_at(&self, spot: Spot) -> u64
        ensures { result ≡ option_map_or (number self.now.fired) (index_of spot) 0 }
    {
        match index_of(spot) {
            Some(index) => match self.fired.get(index) {
                Some(count) => *count,
                None => 0,
            },
            None => 0,
        }
    }

    fn enter_post(&mut self, port: PortNo)
        ensures { FitOneMore self.old.posted → self.old.posts < 2 ^ 64 - 1 → self.new ≡ after_post port self.old }
    {
        add_one(&mut self.posted, port as usize);
        self.posts = self.posts.saturating_add(1);
    }

    fn enter_fire(&mut self, spot: Spot, messages: &[MsgId], cuts: &[TaskId])
        ensures { WhereFireFits messages.now cuts.now self.old (self.new ≡ after_fire spot messages.now cuts.now self.old) }
    {
        add_spot(&mut self.fired, spot);
        self.taken = self.taken.saturating_add(messages.len() as u64);
        self.firings = self.firings.saturating_add(1);
        self.cut = self.cut.saturating_add(cuts.len() as u64);
    }

    fn enter_put(&mut self, ledger: &Ledger, task: TaskId, dropped: Option<TaskId>)
        ensures { FitOneMore self.old.put → FitOneMore self.old.dropped → self.old.drops < 2 ^ 64 - 1 → self.new ≡ after_put ledger.now task dropped self.old }
    {
        add_task(&mut self.put, ledger, task);
        if let Some(task) = dropped {
            add_task(&mut self.dropped, ledger, task);
            self.drops = self.drops.saturating_add(1);
        }
    }

    fn enter_end(&mut self, how: EndHow)
        ensures { self.old.done < 2 ^ 64 - 1 → self.old.failed < 2 ^ 64 - 1 → self.old.shed < 2 ^ 64 - 1 → self.old.yielded < 2 ^ 64 - 1 → self.new ≡ after_end how self.old }
    {
        match how {
            EndHow::Done => self.done = self.done.saturating_add(1),
            EndHow::Failed(_) => self.failed = self.failed.saturating_add(1),
            EndHow::Yield => self.yielded = self.yielded.saturating_add(1),
            EndHow::Shed => self.shed = self.shed.saturating_add(1),
        }
    }

    /// Counts the event. The queues of its tasks are told by the tables.
    pub(crate) fn enter(&mut self, ledger: &Ledger, event: &Event)
        ensures { EventFits event.now self.old → self.new ≡ after_event ledger.now event.now self.old }
    {
        match event {
            Event::Post(message) => self.enter_post(message.port),
            Event::Fire {
                spot,
                messages,
                cuts,
                ..
            } => self.enter_fire(*spot, messages.as_slice(), cuts.as_slice()),
            Event::Put { task, dropped } => self.enter_put(ledger, *task, *dropped),
            Event::End { how, .. } => self.enter_end(*how),
            _ => {}
        }
    }

    /// Counts the event that comes behind a history, by the tables before it. It may ask nothing of its caller, so a number that is as
    /// great as it can be stays so; no legal history comes there.
    pub fn count(&mut self, tables: &Ledger, event: &Event)
        ensures { (wiring : Parts) (history : Listed SomeEvent) → CountsNext wiring history tables.now event.now self.old self.new }
    {
        valid_histories_are_short();
        self.enter(tables, event);
    }
}
