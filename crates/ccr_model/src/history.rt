//! Events, and histories: lists of events and nothing else.

ghost use Rattle.std.specs.Prelude.{◌≡◌, [], ◌∷◌, ◌++◌, IfErr, IfOk, OnOk, OnErr};

use ccr_base::{ActorNo, List, Msg, MsgId, OutOfMemory, Spot, TaskId, Value};
use std::alloc::Global;
use std::marker::Model;

/// How a segment ends: done, failed with a value, suspended at its await site, or for want of budget.
#[derive(Clone, Copy, PartialEq, Eq)]
pub enum EndHow {
    Done,
    Failed(Value),
    Yield,
    Shed,
}

/// One step of the run, under one lock.
#[derive(Drop)]
pub enum Event {
    Post(Msg),
    Fire {
        task: TaskId,
        spot: Spot,
        messages: List<MsgId>,
        cuts: List<TaskId>,
    },
    Admit(TaskId),
    Put {
        task: TaskId,
        dropped: Option<TaskId>,
    },
    Start {
        task: TaskId,
        actor: ActorNo,
    },
    End {
        task: TaskId,
        how: EndHow,
    },
}

impl Event {
    /// An equal event.
    pub fn copy(&self, alloc: Global) -> Result<Event, OutOfMemory>
        ensures { IfOk result (λ copied. copied ≡ self.now) }
    {
        Ok(match self {
            Event::Post(message) => Event::Post(message.copy(alloc)?),
            Event::Fire {
                task,
                spot,
                messages,
                cuts,
            } => Event::Fire {
                task: *task,
                spot: *spot,
                messages: messages.copy(alloc)?,
                cuts: cuts.copy(alloc)?,
            },
            Event::Admit(task) => Event::Admit(*task),
            Event::Put { task, dropped } => Event::Put {
                task: *task,
                dropped: *dropped,
            },
            Event::Start { task, actor } => Event::Start {
                task: *task,
                actor: *actor,
            },
            Event::End { task, how } => Event::End {
                task: *task,
                how: *how,
            },
        })
    }
}

/// Where a task that took a message is. Ready: it may be put.
#[derive(Clone, Copy, PartialEq, Eq)]
pub enum TaskState {
    Waiting,
    Cut,
    Ready,
    Queued,
    Dropped,
    Running,
    Ended(EndHow),
}

/// What became of a posted message.
#[derive(Clone, Copy, PartialEq, Eq)]
pub enum Fate {
    Held,
    Taken { task: TaskId, state: TaskState },
}

/// How often each thing happened in a history. `unended` tasks fired and neither ended nor were cut or dropped.
#[derive(Clone, Copy, PartialEq, Eq)]
pub struct Totals {
    pub posted: u64,
    pub taken: u64,
    pub held: u64,
    pub fired: u64,
    pub done: u64,
    pub failed: u64,
    pub shed: u64,
    pub yielded: u64,
    pub cut: u64,
    pub dropped: u64,
    pub unended: u64,
}

/// What happened, oldest first.
#[derive(Drop)]
pub struct History {
    past: List<Event>,
}

impl Model for History {
    ghost use Rattle.std.specs.Prelude.{List as Listed};
    ghost use Rattle.ccr_model.specs.declared.history.Event.{Event};

    ghost Value = { Listed Event };

    ghost view = { λ history. history.past };
}

impl History {
    /// The empty history, which takes no memory.
    pub fn new(alloc: Global) -> Self
        ensures { result ≡ [] }
    {
        History {
            past: List::new(alloc),
        }
    }

    /// Adds the event at the end, or hands it back.
    pub fn push(&mut self, event: Event) -> Result<(), (OutOfMemory, Event)>
        ensures ok { OnOk result (self.new ≡ self.old ++ event ∷ []) }
        ensures err { OnErr result (self.new ≡ self.old) }
        ensures returned { IfErr result (λ refused. refused.1 ≡ event) }
    {
        self.past.push(event)
    }

    /// Adds the event at the end. Where memory runs out the event is dropped, and the history stays as it was.
    pub fn append(&mut self, event: Event) -> Result<(), OutOfMemory>
        ensures ok { OnOk result (self.new ≡ self.old ++ event ∷ []) }
        ensures err { OnErr result (self.new ≡ self.old) }
    {
        match self.push(event) {
            Ok(()) => Ok(()),
            Err((memory, _)) => Err(memory),
        }
    }

    pub fn events(&self) -> &[Event]
        ensures { result.now ≡ self.now }
    {
        self.past.as_slice()
    }
}
