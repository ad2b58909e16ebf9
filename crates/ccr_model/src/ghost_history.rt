//! A history that contracts alone see.

ghost use Rattle.std.specs.Prelude.{◌≡◌, [], ◌∷◌, ◌++◌, IfOk, OnOk, OnErr};

use crate::history::Event;
use ccr_base::OutOfMemory;
use std::alloc::Global;
use std::marker::Model;
use std::snapshot::Snapshot;

/// What happened, oldest first, for contracts alone: no event is kept, and none takes memory.
#[derive(Drop)]
pub struct GhostHistory {
    past: Vec<Snapshot<Event>>,
}

impl Model for GhostHistory {
    ghost use Rattle.std.specs.Prelude.{List as Listed, map};
    ghost use Rattle.ccr_model.specs.declared.history.Event.{Event as SomeEvent};

    ghost Value = { Listed SomeEvent };

    ghost view = { λ history. map (λ one. one.value) history.past.items };
}

impl GhostHistory {
    /// Nothing happened yet.
    pub fn new(alloc: Global) -> Self
        ensures { result ≡ [] }
    {
        GhostHistory {
            past: Vec::new(alloc),
        }
    }

    /// These events happened.
    pub fn of(alloc: Global, events: &[Event]) -> Result<Self, OutOfMemory>
        ensures { IfOk result (λ history. history ≡ events.now) }
    {
        let mut history = GhostHistory::new(alloc);
        for event in events {
            history.push(event)?;
        }
        Ok(history)
    }

    /// The event happens.
    pub fn push(&mut self, event: &Event) -> Result<(), OutOfMemory>
        ensures ok { OnOk result (self.new ≡ self.old ++ event.now ∷ []) }
        ensures err { OnErr result (self.new ≡ self.old) }
    {
        self.past.push(Snapshot::of(event))?;
        Ok(())
    }
}
