//! What an actor does between its drives.

ghost use Rattle.std.specs.Prelude.{◌≡◌, []};
ghost use Rattle.ccr_wiring.specs.Wirings.{segment_of};
ghost use Rattle.ccr_actor.specs.Actors.{play_ask, post_ask};
ghost use Rattle.ccr_actor.specs.Acting.{sent_play};
ghost use Rattle.ccr_actor.specs.Inside.{how_over, play_of, playing_of, over_ask, suspend_ask};

use ccr_base::{CauseNo, How, List, Msg, MsgId, Place, Sent, Task};
use ccr_claim::{Ask, Asked, Lines};
use ccr_handler::PlayEnd;
use ccr_wiring::{QueuePart, branch_of};
use std::alloc::Global;
use std::collections::VecDeque;
use std::mem::replace;

/// The play of a task that runs.
#[derive(Drop)]
pub struct Playing {
    pub task: Task,
    /// The number of the task's segment.
    pub segment: u32,
    /// That of the next post: how many are made.
    pub index: u32,
    /// The posts that are left.
    pub posts: VecDeque<Sent>,
    pub end: PlayEnd,
    pub causes: List<CauseNo>,
}

/// The rest of a script, a round, a take, a play, a post that was drawn, an end for want of budget, rest.
#[derive(Drop)]
pub enum Work<'w> {
    Lines(Lines<'w>),
    Round,
    Taking {
        left: u32,
        queue: u32,
        more: &'w [QueuePart],
    },
    Playing(Playing),
    Posting(Playing, Sent),
    Shedding(Task),
    Resting,
}

/// The task is noted over.
pub fn over(task: &Task, how: How) -> Asked
    ensures { result ≡ over_ask task.now how }
{
    Asked {
        place: Place::Arbiter(task.arbiter),
        ask: Ask::Over {
            task: task.id,
            root: task.root,
            how,
        },
    }
}

/// How the task is over after its play, unless it is suspended.
fn how_over(end: &PlayEnd) -> Option<How>
    ensures { result ≡ how_over end.now }
{
    match end {
        PlayEnd::Done => Some(How::Done),
        PlayEnd::Failed(value) => Some(How::Failed(*value)),
        PlayEnd::Yield(_) => None,
    }
}

impl Playing {
    /// The next draw, or the end of the play. A task that is suspended goes out.
    pub fn ask(&mut self, alloc: Global) -> Asked
        requires { self.old.segment ≡ segment_of self.old.task.spot }
        ensures asked { result ≡ play_ask self.old.task (play_of self.old) self.old.posts.items }
        ensures sent { playing_of self.new ≡ sent_play self.old.task self.old.index (play_of self.old) self.old.posts.items self.old.end }
        ensures kept { (self.new.task.spot ≡ self.old.task.spot) × (self.new.segment ≡ self.old.segment) × (self.new.index ≡ self.old.index) × (self.new.posts.items ≡ self.old.posts.items) }
    {
        if !self.posts.is_empty() {
            return Asked {
                place: Place::Meter,
                ask: Ask::Draw,
            };
        }
        match how_over(&self.end) {
            Some(how) => over(&self.task, how),
            None => self.suspend(alloc),
        }
    }

    /// The task goes out with the causes at the end of its play.
    fn suspend(&mut self, alloc: Global) -> Asked
        requires { self.old.segment ≡ segment_of self.old.task.spot }
        ensures asked { result ≡ suspend_ask self.old.task (play_of self.old) }
        ensures sent { self.new ≡ record self.old { task = record self.old.task { values = []; causes = [] }; causes = [] } }
    {
        let values = replace(&mut self.task.values, List::new(alloc));
        let causes = replace(&mut self.causes, List::new(alloc));
        self.task.causes = List::new(alloc);
        Asked {
            place: Place::Site(branch_of(self.task.spot), self.segment),
            ask: Ask::Suspend(Task {
                id: self.task.id,
                root: self.task.root,
                spot: self.task.spot,
                arbiter: self.task.arbiter,
                queue: self.task.queue,
                values,
                causes,
            }),
        }
    }

    /// The post that was drawn; its causes go out.
    pub fn post(&self, sent: &mut Sent, alloc: Global) -> Asked
        ensures asked { result ≡ post_ask self.now.task self.now.index sent.old }
        ensures sent { sent.new ≡ record sent.old { causes = [] } }
    {
        let causes = replace(&mut sent.causes, List::new(alloc));
        Asked {
            place: Place::Port(sent.port),
            ask: Ask::Post(Msg {
                id: MsgId::Task {
                    task: self.task.id,
                    place: self.index,
                },
                port: sent.port,
                value: sent.value,
                causes,
            }),
        }
    }
}
