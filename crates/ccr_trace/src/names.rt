//! The names that lines refer to by number.

ghost use Rattle.std.specs.Prelude.{◌≡◌, IfOk};
ghost use Rattle.ccr_trace.specs.Words.{branch_names};

use ccr_base::{List, Name, OutOfMemory};
use ccr_wiring::{Parts, Wiring, branch_names};
use std::alloc::Global;
use std::marker::Model;

/// A wiring's parts, whose names lines refer to. Those of its branches stand in one list.
#[derive(Drop)]
pub struct WiringNames<'w> {
    parts: &'w Parts,
    branches: List<Name>,
}

impl<'w> Model for WiringNames<'w> {
    ghost use Rattle.std.specs.Prelude.{◌≡◌};
    ghost use Rattle.ccr_wiring.specs.declared.parts.Parts.{Parts as SomeParts};
    ghost use Rattle.ccr_trace.specs.Words.{branch_names};

    ghost Value = { SomeParts };

    ghost view = { λ names. names.parts.now };

    ghost invariant = { λ names. names.branches ≡ branch_names names.parts.now };
}

impl<'w> WiringNames<'w> {
    /// The names of the wiring.
    pub fn new(alloc: Global, wiring: &'w Wiring) -> Result<Self, OutOfMemory>
        ensures { IfOk result (λ names. names ≡ wiring.now) }
    {
        let parts = wiring.parts();
        let branches = branch_names(alloc, parts)?;
        Ok(WiringNames { parts, branches })
    }

    /// The parts of the wiring.
    pub(crate) fn parts(&self) -> &Parts
        ensures { result.now ≡ self.now }
    {
        self.parts
    }

    /// The names of its branches.
    pub(crate) fn branches(&self) -> &[Name]
        ensures { result.now ≡ branch_names self.now }
    {
        self.branches.as_slice()
    }
}
