//! Who is told what happens.

ghost use Rattle.std.specs.Prelude.{List, OnOk};
ghost use Rattle.ccr_wiring.specs.declared.parts.Parts.{Parts};
ghost use Rattle.ccr_model.specs.declared.history.Event.{Event as SomeEvent};
ghost use Rattle.ccr_engine.specs.Coming.{HearsNext};

use ccr_base::OutOfMemory;
use ccr_ledger::Ledger;
use ccr_model::Event;

/// One that is told of each event of a wiring as it happens, and makes of it what it likes.
pub trait Listener {
    // What it has made is that of these events of the wiring.
    ghost has_heard: { Self → Parts → List SomeEvent → Type 0 };

    /// The event comes next, behind those heard before. The tables are those before it.
    fn hear(&mut self, tables: &Ledger, event: &Event) -> Result<(), OutOfMemory>
        ensures { OnOk result (HearsNext (has_heard self.old) (has_heard self.new) tables.now event.now) };
}
