//! What a wiring has: its ports, causes and spots by their names.

ghost use Rattle.std.specs.Prelude.{◌≡◌, ◌++◌, IfOk, OnOk, map};
ghost use Rattle.ccr_trace.specs.Words.{branch_names, branch_names_of, cause_names};
ghost use Rattle.ccr_trace.specs.Fields.{each};
ghost use Rattle.ccr_trace.specs.Known.{number_in, spot_known};
ghost use Rattle.ccr_trace.specs.Answers.{Finds};

use crate::cursor::PieceCursor;
use crate::line_fault::LineFault;
use crate::numbered_names::NumberedNames;
use ccr_base::{CauseNo, List, Name, OutOfMemory, PortNo, Spot};
use ccr_text::Stop;
use ccr_wiring::{ArbiterPart, CausePart, Parts, Wiring, valid_wirings_are_sound};
use std::alloc::Global;
use std::marker::Model;

fn port_names<'w>(alloc: Global, ports: &'w [Name]) -> Result<Vec<&'w [u8]>, OutOfMemory>
    ensures { IfOk result (λ names. map (λ name. name.now) names.items ≡ ports.now) }
{
    let mut names = Vec::new(alloc);
    for name in ports {
        names.push(name.as_slice())?;
    }
    Ok(names)
}

fn cause_names<'w>(alloc: Global, parts: &'w [CausePart]) -> Result<Vec<&'w [u8]>, OutOfMemory>
    ensures { IfOk result (λ names. map (λ name. name.now) names.items ≡ map (λ part. part.name) parts.now) }
{
    let mut names = Vec::new(alloc);
    for part in parts {
        names.push(part.name.as_slice())?;
    }
    Ok(names)
}

fn add_branches<'w>(names: &mut Vec<&'w [u8]>, arbiter: &'w ArbiterPart) -> Result<(), OutOfMemory>
    ensures { OnOk result (map (λ name. name.now) names.new.items ≡ map (λ name. name.now) names.old.items ++ branch_names_of arbiter.now) }
{
    for part in arbiter.branches.as_slice() {
        names.push(part.name.as_slice())?;
    }
    Ok(())
}

fn branch_names<'w>(alloc: Global, parts: &'w Parts) -> Result<Vec<&'w [u8]>, OutOfMemory>
    ensures { IfOk result (λ names. map (λ name. name.now) names.items ≡ branch_names parts.now) }
{
    let mut names = Vec::new(alloc);
    for arbiter in parts.arbiters.as_slice() {
        add_branches(&mut names, arbiter)?;
    }
    Ok(names)
}

/// A wiring with the numbers of its names. Contracts see its parts.
#[derive(Drop)]
pub struct Known<'w> {
    alloc: Global,
    wiring: &'w Wiring,
    ports: NumberedNames<'w>,
    causes: NumberedNames<'w>,
    branches: NumberedNames<'w>,
}

impl<'w> Model for Known<'w> {
    ghost use Rattle.std.specs.Prelude.{◌≡◌};
    ghost use Rattle.ccr_wiring.specs.declared.parts.Parts.{Parts as Stated};
    ghost use Rattle.ccr_trace.specs.Words.{branch_names, cause_names};

    ghost Value = { Stated };

    ghost view = { λ known. known.wiring.now };

    ghost invariant = { λ known. (known.ports ≡ known.wiring.now.ports) × (known.causes ≡ cause_names known.wiring.now) × (known.branches ≡ branch_names known.wiring.now) };
}

impl<'w> Known<'w> {
    pub fn new(alloc: Global, wiring: &'w Wiring) -> Result<Self, OutOfMemory>
        ensures { IfOk result (λ known. known ≡ wiring.now) }
    {
        valid_wirings_are_sound();
        let parts = wiring.parts();
        let names = port_names(alloc, parts.ports.as_slice())?;
        let ports = NumberedNames::of(alloc, &names)?;
        let names = cause_names(alloc, parts.causes.as_slice())?;
        let causes = NumberedNames::of(alloc, &names)?;
        let names = branch_names(alloc, parts)?;
        let branches = NumberedNames::of(alloc, &names)?;
        Ok(Known {
            alloc,
            wiring,
            ports,
            causes,
            branches,
        })
    }

    /// The wiring, as contracts see it.
    pub fn parts(&self) -> &Parts
        ensures { result.now ≡ self.now }
    {
        self.wiring.parts()
    }

    pub fn version(&self) -> u32
        ensures { result ≡ self.now.version }
    {
        self.parts().version
    }

    pub fn port(&self, name: &[u8]) -> Result<PortNo, Stop<LineFault>>
        ensures { Finds result (number_in self.now.ports name.now) }
    {
        self.ports
            .get(name)
            .ok_or(Stop::Refused(LineFault::Unknown))
    }

    /// The causes of these names.
    #[tactic(auto, using(crate::proofs::Each::each_steps))]
    pub fn causes(&self, mut names: PieceCursor<'_>) -> Result<List<CauseNo>, Stop<LineFault>>
        ensures { Finds result (each (number_in (cause_names self.now)) names.entry) }
    {
        let mut found = List::new(self.alloc);
        'names: while let Some(name) = names.take() {
            let cause = self
                .causes
                .get(name)
                .ok_or(Stop::Refused(LineFault::Unknown))?;
            found.push(cause).map_err(|refused| refused.0)?;
        }
        Ok(found)
    }

    /// The branch of that name, or its site where it has one of that number.
    #[tactic(auto, unfolding(crate::specs::Known::spot_known))]
    pub fn spot(&self, name: &[u8], site: Option<u32>) -> Result<Spot, Stop<LineFault>>
        ensures { Finds result (spot_known self.now (record { name = name.now; site = site })) }
    {
        let branch = self
            .branches
            .get(name)
            .ok_or(Stop::Refused(LineFault::Unknown))?;
        let Some(site) = site else {
            return Ok(Spot::Branch(branch));
        };
        if self.wiring.site_port(branch, site).is_none() {
            return Err(Stop::Refused(LineFault::Unknown));
        }
        Ok(Spot::Site(branch, site))
    }
}
