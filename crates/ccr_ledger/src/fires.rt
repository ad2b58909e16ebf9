//! What a firing makes of the tables.

ghost use Rattle.std.specs.Prelude.{◌≡◌, OnErr, OnOk, IfOk};
ghost use Rattle.ccr_wiring.specs.Wirings.{site_port};
ghost use Rattle.ccr_model.specs.Views.{load_seen, placement_seen};
ghost use Rattle.ccr_ledger.specs.Taking.{AreLeftOf, take_pattern, take_site};
ghost use Rattle.ccr_ledger.specs.Refused.{IsFiringRefused, IsTakenFrom};
ghost use Rattle.ccr_ledger.specs.Firing.{after_flags, after_cut, after_cuts, after_fire, after_new, after_next, after_taking, after_wait, branch_card, first_card, first_stage, next_card, site_card};

use crate::counts::{add_one, raise, take_one};
use crate::ledger::arrive;
use crate::loads::{load_left, with_messages};
use crate::ports::{take_pattern, take_site};
use crate::tasks::{first_suspended, move_to, resume};
use crate::{Card, HeldMessages, KeptPlay, KeptValues, Ledger, Rows, TaskStage};
use ccr_base::{BranchNo, MsgId, OutOfMemory, Spot, TaskId, is_concurrent, is_teardown};
use ccr_model::data::{TaskLoad, no_load, play_at_spot};
use ccr_wiring::{PlacementOf, Wiring, is_interleave};
use std::alloc::Global;

/// Where the task of a firing at the branch stands first.
fn first_stage(placement: PlacementOf<'_>) -> TaskStage
    ensures { result ≡ first_stage (placement_seen placement.entry) }
{
    if is_interleave(placement.kind) {
        TaskStage::Waiting
    } else {
        TaskStage::Ready
    }
}

/// A task that a branch of the Interleave fired waits; one of a teardown branch alone, as those before it are cut.
#[tactic(auto, using(crate::proofs::ChangedBack::alone))]
fn wait(
    waiting: &mut Rows<TaskId>,
    placement: PlacementOf<'_>,
    task: TaskId,
) -> Result<(), OutOfMemory>
    ensures ok { OnOk result (waiting.new ≡ after_wait (placement_seen placement.entry) task waiting.old) }
    ensures err { OnErr result (waiting.new ≡ waiting.old) }
{
    if !is_interleave(placement.kind) {
        return Ok(());
    }
    if is_teardown(placement.branch.group) {
        waiting.enter_alone(placement.domain, task)
    } else {
        waiting.enter(placement.domain, task)
    }
}

/// The card of a task that the branch fires, which so many fired before.
fn branch_card(
    alloc: Global,
    wiring: &Wiring,
    task: TaskId,
    branch: BranchNo,
    placement: PlacementOf<'_>,
    number: usize,
    load: TaskLoad,
) -> Result<Card, OutOfMemory>
    ensures { IfOk result (λ card. card ≡ branch_card wiring.now task branch (placement_seen placement.entry) number (load_seen load)) }
{
    let spot = Spot::Branch(branch);
    let play = KeptPlay::of(alloc, play_at_spot(alloc, wiring, spot, &load)?)?;
    let TaskLoad { values, causes: _ } = load;
    Ok(Card {
        spot,
        queue: placement.branch.queue,
        domain: placement.domain,
        concurrent: is_concurrent(placement.branch.group),
        root: task,
        number,
        values: KeptValues::of(alloc, values)?,
        play,
        stage: first_stage(placement),
        admitted: false,
        made: 0,
    })
}

/// The card of a task that the site fires, which goes on for the task of the card.
fn site_card(
    alloc: Global,
    wiring: &Wiring,
    branch: BranchNo,
    site: u32,
    before: &Card,
    number: usize,
    load: TaskLoad,
) -> Result<Card, OutOfMemory>
    ensures { IfOk result (λ card. card ≡ site_card wiring.now branch site before.now number (load_seen load)) }
{
    let spot = Spot::Site(branch, site);
    let play = KeptPlay::of(alloc, play_at_spot(alloc, wiring, spot, &load)?)?;
    let TaskLoad { values, causes: _ } = load;
    Ok(Card {
        spot,
        queue: before.queue,
        domain: before.domain,
        concurrent: before.concurrent,
        root: before.root,
        number,
        values: KeptValues::of(alloc, values)?,
        play,
        stage: TaskStage::Ready,
        admitted: false,
        made: 0,
    })
}

/// Takes what the branch takes, and makes the card of the task that it fires.
fn first_card(
    alloc: Global,
    wiring: &Wiring,
    ports: &mut Vec<HeldMessages>,
    task: TaskId,
    branch: BranchNo,
    placement: PlacementOf<'_>,
    messages: &[MsgId],
    number: usize,
) -> Result<Card, OutOfMemory>
    ensures left { AreLeftOf ports.old.items ports.new.items }
    ensures ports { OnOk result (ports.new.items ≡ (take_pattern (placement_seen placement.entry).branch.pattern messages.now ports.old.items).ports) }
    ensures card { IfOk result (λ card. card ≡ first_card wiring.now task branch (placement_seen placement.entry) number messages.now ports.old.items) }
{
    let taken = take_pattern(alloc, ports, &placement.branch.pattern, messages)?;
    let load = with_messages(alloc, no_load(alloc), &taken)?;
    branch_card(alloc, wiring, task, branch, placement, number, load)
}

/// Takes what the site takes, and makes the card of the task that it fires, which goes on for the task of the card before.
fn next_card(
    alloc: Global,
    wiring: &Wiring,
    ports: &mut Vec<HeldMessages>,
    before: &Card,
    branch: BranchNo,
    site: u32,
    number: usize,
) -> Result<Card, OutOfMemory>
    ensures left { AreLeftOf ports.old.items ports.new.items }
    ensures ports { OnOk result (ports.new.items ≡ (take_site (site_port wiring.now branch site) ports.old.items).ports) }
    ensures card { IfOk result (λ card. card ≡ next_card wiring.now branch site before.now number ports.old.items) }
{
    let taken = take_site(alloc, ports, wiring.site_port(branch, site))?;
    let load = with_messages(alloc, load_left(alloc, before)?, &taken)?;
    site_card(alloc, wiring, branch, site, before, number, load)
}

impl Ledger {
    /// The task is cut: it comes to no queue.
    fn cut(&mut self, task: TaskId)
        ensures { self.new ≡ after_cut task self.old }
    {
        let Some(card) = self.card(task) else {
            return;
        };
        let spot = card.spot;
        let queue = card.queue;
        move_to(&mut self.tasks, task, TaskStage::Cut);
        arrive(&mut self.coming, spot, queue);
    }

    /// The tasks are cut.
    fn cut_all(&mut self, tasks: &[TaskId])
        ensures { self.new ≡ after_cuts tasks.now self.old }
    {
        for task in tasks {
            self.cut(*task);
        }
    }

    /// The branch and its domain have fired.
    fn raise_flags(&mut self, branch: BranchNo, placement: PlacementOf<'_>)
        ensures { self.new ≡ after_flags branch (placement_seen placement.entry) self.old }
    {
        raise(&mut self.spent, branch as usize);
        raise(&mut self.chosen, placement.domain);
        if is_teardown(placement.branch.group) {
            raise(&mut self.torn, placement.domain);
        }
    }

    /// The task of the card, which the branch fired, stands in the tables. Room for the card is made first.
    #[tactic(auto, using(crate::proofs::ChangedBack::less_more))]
    fn enter(
        &mut self,
        task: TaskId,
        card: Card,
        placement: PlacementOf<'_>,
    ) -> Result<(), OutOfMemory>
        ensures ok { OnOk result (self.new ≡ after_new task card (placement_seen placement.entry) self.old) }
        ensures err { OnErr result (self.new ≡ self.old) }
    {
        let queue = placement.branch.queue as usize;
        let index = self.tasks.len();
        self.tasks.reserve(1)?;
        add_one(&mut self.coming, queue)?;
        if let Err(refused) = wait(&mut self.waiting, placement, task) {
            take_one(&mut self.coming, queue);
            return Err(refused);
        }
        let Ok(_) = self.tasks.insert(task, card) else {
            unreachable!()
        };
        self.guess = index;
        Ok(())
    }

    /// The branch fires the task, whose cuts are made.
    fn fire_branch(
        &mut self,
        wiring: &Wiring,
        task: TaskId,
        branch: BranchNo,
        placement: PlacementOf<'_>,
        messages: &[MsgId],
    ) -> Result<(), OutOfMemory>
        ensures ok { OnOk result (self.new ≡ after_taking wiring.now task branch messages.now self.old (placement_seen placement.entry)) }
        ensures err { OnErr result (IsTakenFrom self.old self.new) }
    {
        let number = self.tasks.len();
        let ports = &mut self.ports;
        let card = first_card(
            self.alloc, wiring, ports, task, branch, placement, messages, number,
        )?;
        self.enter(task, card, placement)?;
        self.raise_flags(branch, placement);
        Ok(())
    }

    /// The site fires the task.
    fn fire_site(
        &mut self,
        wiring: &Wiring,
        task: TaskId,
        branch: BranchNo,
        site: u32,
    ) -> Result<(), OutOfMemory>
        ensures ok { OnOk result (self.new ≡ after_next wiring.now task branch site self.old) }
        ensures err { OnErr result (IsTakenFrom self.old self.new) }
    {
        let Some(before) = first_suspended(&self.suspended, branch, site) else {
            return Ok(());
        };
        let Some(card) = self.tasks.get(&before) else {
            return Ok(());
        };
        let number = self.tasks.len();
        let card = next_card(
            self.alloc,
            wiring,
            &mut self.ports,
            card,
            branch,
            site,
            number,
        )?;
        self.tasks.insert(task, card)?;
        resume(&mut self.suspended, branch, site);
        Ok(())
    }

    /// The task fires at the spot.
    pub(crate) fn fire(
        &mut self,
        wiring: &Wiring,
        task: TaskId,
        spot: Spot,
        messages: &[MsgId],
        cuts: &[TaskId],
    ) -> Result<(), OutOfMemory>
        ensures ok { OnOk result (self.new ≡ after_fire wiring.now task spot messages.now cuts.now self.old) }
        ensures err { OnErr result (IsFiringRefused spot cuts.now self.old self.new) }
    {
        match spot {
            Spot::Branch(branch) => {
                let Some(placement) = wiring.placement(branch) else {
                    return Ok(());
                };
                self.cut_all(cuts);
                self.fire_branch(wiring, task, branch, placement, messages)
            }
            Spot::Site(branch, site) => self.fire_site(wiring, task, branch, site),
        }
    }
}
