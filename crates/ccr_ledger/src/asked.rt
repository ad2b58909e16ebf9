//! What the tables answer.

ghost use Rattle.std.specs.Prelude.{◌≡◌, IfOk, IfSome, Some, length};
ghost use Rattle.std.specs.List.{slice_get};
ghost use Rattle.std.specs.Option.{option_map};
ghost use Rattle.ccr_base.specs.declared.names.TaskId.{TaskId};
ghost use Rattle.ccr_ledger.specs.Rows.{row};
ghost use Rattle.ccr_model.specs.Selection.{names_of};
ghost use Rattle.ccr_ledger.specs.declared.cards.Card.{Card};
ghost use Rattle.ccr_ledger.specs.Books.{card_at, number};
ghost use Rattle.ccr_ledger.specs.Asked.{may_admit_card, are_selected, budget_lasts, can_choose, selection_at, cuts, drops, may_admit_task, group_lives, has_fired, has_more, is_busy, is_ready, is_ready_stage, lives, open_ports_kept, queue_has_room, queued_first, room, runs, unfinished, waits_first};

use crate::counts::{flag, number};
use crate::named_selections::{are_oldest, are_selected_by};
use crate::selections::{count, has_enough, names_of_selection, names_of_site};
use crate::tasks::first_suspended;
use crate::{Card, Ledger, Rows, Runner, TaskStage};
use ccr_base::{
    ActorNo, BranchNo, Group, MsgId, OutOfMemory, Policy, PortNo, QueueNo, Spot, TaskId,
    is_teardown,
};
use ccr_model::Event;
use ccr_wiring::{Wiring, branch_of};
use std::alloc::Global;

/// Whether a task in the stage may be put.
fn is_ready_stage(stage: TaskStage) -> bool
    ensures { result ≡ is_ready_stage stage }
{
    match stage {
        TaskStage::Ready => true,
        _ => false,
    }
}

/// The tasks of the row.
fn row_of(alloc: Global, rows: &Rows<TaskId>, number: usize) -> Result<Vec<TaskId>, OutOfMemory>
    ensures { IfOk result (λ tasks. tasks.items ≡ row rows.now number) }
{
    let mut tasks = Vec::new(alloc);
    for index in 0..rows.len(number) {
        if let Some(task) = rows.at(number, index) {
            tasks.push(*task)?;
        }
    }
    Ok(tasks)
}

impl Ledger {
    /// The card at the guessed index, where it is that of the task.
    fn guessed(&self, task: TaskId) -> Option<&Card>
        ensures { IfSome result (λ card. card_at self.now.tasks task ≡ Some card.now) }
    {
        let (name, card) = self.tasks.get_index(self.guess)?;
        if *name == task { Some(card) } else { None }
    }

    /// What is kept of the task; nothing where it never fired.
    pub fn card(&self, task: TaskId) -> Option<&Card>
        ensures { option_map (λ card. card.now) result ≡ card_at self.now.tasks task }
    {
        match self.guessed(task) {
            Some(card) => Some(card),
            None => self.tasks.get(&task),
        }
    }

    /// The task's card becomes the guess, where it isn't.
    fn seek_task(&mut self, task: TaskId)
        ensures { self.new ≡ self.old }
    {
        if self.guessed(task).is_some() {
            return;
        }
        if let Some(index) = self.tasks.get_index_of(&task) {
            self.guess = index;
        }
    }

    /// Looks up the card of the event's task, which is asked for again and again while the event is judged and entered. The tables
    /// stay as they are.
    pub fn seek(&mut self, event: &Event)
        ensures { self.new ≡ self.old }
    {
        match event {
            Event::Post(message) => {
                if let MsgId::Task { task, .. } = message.id {
                    self.seek_task(task);
                }
            }
            Event::Fire { .. } => {}
            Event::Admit(task)
            | Event::Put { task, .. }
            | Event::Start { task, .. }
            | Event::End { task, .. } => self.seek_task(*task),
        }
    }

    /// The task that fired after so many others.
    pub fn fired(&self, number: usize) -> Option<TaskId>
        ensures { result ≡ option_map (λ (entry : TaskId × Card). entry.0) (slice_get self.now.tasks number) }
    {
        let (task, _) = self.tasks.get_index(number)?;
        Some(*task)
    }

    /// How many tasks fired.
    pub fn count_fired(&self) -> usize
        ensures { result ≡ length self.now.tasks }
    {
        self.tasks.len()
    }

    /// Whether the task fired.
    pub fn has_fired(&self, task: TaskId) -> bool
        ensures { result ≡ has_fired self.now task }
    {
        self.card(task).is_some()
    }

    /// How many messages the port holds.
    pub fn count_held(&self, port: PortNo) -> usize
        ensures { result ≡ length (row self.now.ports port) }
    {
        count(&self.ports, port)
    }

    /// Whether a branch of the group may fire once more.
    fn group_lives(&self, branch: BranchNo, domain: usize, group: Group) -> bool
        ensures { result ≡ group_lives self.now branch domain group }
    {
        match group {
            Group::Always => true,
            Group::Once => !flag(&self.spent, branch as usize),
            Group::Choice => !flag(&self.chosen, domain),
            _ => !flag(&self.torn, domain),
        }
    }

    /// Whether the spot may fire once more.
    pub fn lives(&self, wiring: &Wiring, spot: Spot) -> bool
        ensures { result ≡ lives wiring.now self.now spot }
    {
        match spot {
            Spot::Branch(branch) => match wiring.placement(branch) {
                Some(placement) => self.group_lives(
                    branch,
                    placement.domain,
                    placement.branch.group,
                ),
                None => false,
            },
            Spot::Site(branch, site) => first_suspended(&self.suspended, branch, site).is_some(),
        }
    }

    /// Whether a queue of the policy lets a branch fire.
    fn queue_has_room(&self, queue: QueueNo, policy: Policy) -> bool
        ensures { result ≡ queue_has_room self.now queue policy }
    {
        match policy {
            Policy::Throttle(most) => number(&self.coming, queue as usize) < most,
            _ => true,
        }
    }

    /// Whether the queue lets the spot fire.
    pub fn room(&self, wiring: &Wiring, spot: Spot) -> bool
        ensures { result ≡ room wiring.now self.now spot }
    {
        let Spot::Branch(branch) = spot else {
            return true;
        };
        match wiring.placement(branch) {
            Some(placement) => {
                let queue = placement.branch.queue;
                self.queue_has_room(queue, wiring.policy_of(queue))
            }
            None => true,
        }
    }

    /// Whether the ports hold enough for the spot.
    pub fn can_choose(&mut self, wiring: &Wiring, spot: Spot) -> Result<bool, OutOfMemory>
        ensures can { IfOk result (λ can. can ≡ can_choose wiring.now self.old spot) }
        ensures kept { self.new ≡ self.old }
    {
        match spot {
            Spot::Branch(branch) => match wiring.placement(branch) {
                Some(placement) => has_enough(&mut self.ports, &placement.branch.pattern),
                None => Ok(false),
            },
            Spot::Site(branch, site) => match wiring.site_port(branch, site) {
                Some(port) => Ok(count(&self.ports, port) != 0),
                None => Ok(false),
            },
        }
    }

    /// The names of the selection that one thread makes at the spot, if there is one.
    pub fn selection(
        &mut self,
        wiring: &Wiring,
        spot: Spot,
    ) -> Result<Option<Vec<MsgId>>, OutOfMemory>
        ensures names { IfOk result (λ names. option_map (λ found. found.items) names ≡ option_map names_of (selection_at wiring.now self.old spot)) }
        ensures kept { self.new ≡ self.old }
    {
        match spot {
            Spot::Branch(branch) => match wiring.placement(branch) {
                Some(placement) => names_of_selection(
                    self.alloc,
                    &mut self.ports,
                    &placement.branch.pattern,
                ),
                None => Ok(None),
            },
            Spot::Site(branch, site) => match wiring.site_port(branch, site) {
                Some(port) => names_of_site(self.alloc, &mut self.ports, port),
                None => Ok(None),
            },
        }
    }

    /// Whether the names are a selection at the spot. Which split of a gather is free.
    pub fn are_selected(
        &mut self,
        wiring: &Wiring,
        spot: Spot,
        names: &[MsgId],
    ) -> Result<bool, OutOfMemory>
        ensures are { IfOk result (λ are. are ≡ are_selected wiring.now self.old spot names.now) }
        ensures kept { self.new ≡ self.old }
    {
        match spot {
            Spot::Branch(branch) => match wiring.placement(branch) {
                Some(placement) => {
                    are_selected_by(
                        self.alloc,
                        &mut self.ports,
                        &placement.branch.pattern,
                        names,
                    )
                }
                None => Ok(false),
            },
            Spot::Site(branch, site) => match wiring.site_port(branch, site) {
                Some(port) => are_oldest(self.alloc, &mut self.ports, port, names),
                None => Ok(false),
            },
        }
    }

    /// The tasks that a firing at the spot cuts, oldest first.
    pub fn cuts(&self, wiring: &Wiring, spot: Spot) -> Result<Vec<TaskId>, OutOfMemory>
        ensures { IfOk result (λ tasks. tasks.items ≡ cuts wiring.now self.now spot) }
    {
        let Spot::Branch(branch) = spot else {
            return Ok(Vec::new(self.alloc));
        };
        let Some(placement) = wiring.placement(branch) else {
            return Ok(Vec::new(self.alloc));
        };
        if is_teardown(placement.branch.group) {
            row_of(self.alloc, &self.waiting, placement.domain)
        } else {
            Ok(Vec::new(self.alloc))
        }
    }

    /// The oldest task that waits in the domain, if any.
    pub fn oldest_waiting(&self, domain: usize) -> Option<TaskId>
        ensures { result ≡ slice_get (row self.now.waiting domain) 0 }
    {
        self.waiting.first(domain).copied()
    }

    /// Whether the task is the oldest that waits in its domain.
    pub fn waits_first(&self, task: TaskId) -> bool
        ensures { result ≡ waits_first self.now task }
    {
        match self.tasks.get(&task) {
            Some(card) => self.waiting.first(card.domain) == Some(&task),
            None => false,
        }
    }

    /// Whether the task of the card may be admitted beside those that were.
    fn may_admit_card(&self, card: &Card) -> bool
        ensures { result ≡ may_admit_card self.now card.now }
    {
        if card.concurrent {
            number(&self.alone, card.domain) == 0
        } else {
            number(&self.admitted, card.domain) == 0
        }
    }

    /// Whether the task may be admitted beside those that were.
    pub fn may_admit_task(&self, task: TaskId) -> bool
        ensures { result ≡ may_admit_task self.now task }
    {
        match self.card(task) {
            Some(card) => self.may_admit_card(card),
            None => false,
        }
    }

    /// Whether the task may be put.
    pub fn is_ready(&self, task: TaskId) -> bool
        ensures { result ≡ is_ready self.now task }
    {
        match self.card(task) {
            Some(card) => is_ready_stage(card.stage),
            None => false,
        }
    }

    /// The task that a put of this one drops: the oldest of its queue, where that is full and discards.
    pub fn drops(&self, wiring: &Wiring, task: TaskId) -> Option<TaskId>
        ensures { result ≡ drops wiring.now self.now task }
    {
        let card = self.card(task)?;
        let queue = card.queue as usize;
        match wiring.policy_of(card.queue) {
            Policy::Discard(most) => {
                if most as usize <= self.queued.len(queue) {
                    self.queued.first(queue).copied()
                } else {
                    None
                }
            }
            _ => None,
        }
    }

    /// The oldest task of the queue, if any.
    pub fn oldest_queued(&self, queue: QueueNo) -> Option<TaskId>
        ensures { result ≡ slice_get (row self.now.queued queue) 0 }
    {
        self.queued.first(queue as usize).copied()
    }

    /// Whether the task is the oldest of its queue.
    pub fn queued_first(&self, task: TaskId) -> bool
        ensures { result ≡ queued_first self.now task }
    {
        match self.tasks.get(&task) {
            Some(card) => self.queued.first(card.queue as usize) == Some(&task),
            None => false,
        }
    }

    /// Those that run, by their starts.
    pub fn running(&self) -> &[Runner]
        ensures { result.now ≡ self.now.running }
    {
        &self.running
    }

    /// Whether the actor runs a task that it started.
    pub fn is_busy(&self, actor: ActorNo) -> bool
        ensures { result ≡ is_busy self.now actor }
    {
        self.running.iter().any(|runner| runner.actor == actor)
    }

    /// Whether the task runs.
    pub fn runs(&self, task: TaskId) -> bool
        ensures { result ≡ runs self.now task }
    {
        self.running.iter().any(|runner| runner.task == task)
    }

    /// The ports to which the task may post from outside, where its handler is open.
    pub fn open_ports<'w>(&self, wiring: &'w Wiring, task: TaskId) -> Option<&'w [PortNo]>
        ensures { option_map (λ ports. ports.now) result ≡ open_ports_kept wiring.now self.now task }
    {
        let card = self.card(task)?;
        let placement = wiring.placement(branch_of(card.spot))?;
        wiring.open_handler(placement.branch.handler)
    }

    /// Whether a post of the task's play is left.
    pub fn has_more(&self, task: TaskId) -> bool
        ensures { result ≡ has_more self.now task }
    {
        match self.card(task) {
            Some(card) => (card.made as usize) < card.play.len(),
            None => false,
        }
    }

    /// How many running tasks have a post left.
    pub fn unfinished(&self) -> usize
        ensures { result ≡ unfinished self.now }
    {
        let mut count = 0;
        for runner in &self.running {
            if self.has_more(runner.task) {
                count += 1;
            }
        }
        count
    }

    /// How many posts of its script the poster has made.
    pub fn script_posts(&self, poster: ActorNo) -> u32
        ensures { result ≡ number self.now.script_posts poster }
    {
        number(&self.script_posts, poster as usize)
    }

    /// How many posts tasks have made.
    pub fn task_posts(&self) -> u32
        ensures { result ≡ self.now.task_posts }
    {
        self.task_posts
    }

    /// Whether tasks have made fewer posts than the budget.
    pub fn budget_lasts(&self, wiring: &Wiring) -> bool
        ensures { result ≡ budget_lasts wiring.now self.now }
    {
        self.task_posts < wiring.parts().budget
    }
}
