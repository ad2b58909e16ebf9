//! The ports that words mean, and the ports that a branch's spots name.

ghost use Rattle.std.specs.Prelude.{◌≡◌, ◌<◌, ◌==◌, not, IfOk, IfSome, length};
ghost use Rattle.ccr_text.specs.Names.{meaning_of};
ghost use Rattle.ccr_wiring.specs.Spots.{branch_named};
ghost use Rattle.ccr_wiring.specs.References.{no_interleave};
ghost use Rattle.ccr_wiretext.specs.Patterns.{is_combined};
ghost use Rattle.ccr_wiretext.specs.Drafts.{members_of};
ghost use Rattle.ccr_wiretext.specs.Fields.{slash_index, set_port, port_of};
ghost use Rattle.std.specs.Option.{option_and_then};
ghost use Rattle.ccr_wiretext.specs.Names.{as_port, as_set};

use crate::draft::Draft;
use crate::named::Named;
use ccr_base::{ArbiterNo, OutOfMemory, PortNo, has_number};
use ccr_wiring::{BranchPart, DomainPart, add_branch_ports, no_interleave};

/// Whether a domain has the arbiter.
pub fn is_combined(domains: &[DomainPart], arbiter: ArbiterNo) -> bool
    ensures { result ≡ is_combined domains.now arbiter }
{
    domains
        .iter()
        .any(|domain| has_number(domain.members.as_slice(), arbiter))
}

/// The index of the first slash.
#[tactic(auto, unfolding(crate::specs::Fields::slash_index))]
fn slash_index(name: &[u8]) -> Option<usize>
    ensures index { result ≡ slash_index name.now }
    ensures within { IfSome result (λ index. index < length name.now) }
{
    name.iter().position(|byte| *byte == b'/')
}

impl Draft {
    fn plain_port(&self, name: &[u8]) -> Option<PortNo>
        ensures { result ≡ option_and_then as_port (meaning_of self.now.names name.now) }
    {
        match self.names.get(name) {
            Some(Named::Port(number)) => Some(number),
            _ => None,
        }
    }

    fn port_set(&self, name: &[u8]) -> Option<u32>
        ensures { result ≡ option_and_then as_set (meaning_of self.now.names name.now) }
    {
        match self.names.get(name) {
            Some(Named::Set(number)) => Some(number),
            _ => None,
        }
    }

    fn members(&self, set: u32) -> &[PortNo]
        ensures { result.now ≡ members_of self.now set }
    {
        match self.parts.sets.as_slice().get(set as usize) {
            Some(part) => part.ports.as_slice(),
            None => &[],
        }
    }

    /// The port of that name, where it is a member of the set.
    fn set_port(&self, set: u32, name: &[u8]) -> Option<PortNo>
        ensures { result ≡ set_port self.now name.now set }
    {
        let port = self.plain_port(name)?;
        if !has_number(self.members(set), port) {
            return None;
        }
        Some(port)
    }

    /// The port that PORT or SET/PORT means.
    pub fn port(&self, name: &[u8]) -> Option<PortNo>
        ensures { result ≡ port_of self.now name.now }
    {
        let Some(index) = slash_index(name) else {
            return self.plain_port(name);
        };
        let set = self.port_set(&name[..index])?;
        self.set_port(set, &name[index + 1..])
    }

    pub fn is_interleave(&self, arbiter: ArbiterNo) -> bool
        ensures { result ≡ not (no_interleave self.now.parts arbiter) }
    {
        !no_interleave(&self.parts, arbiter)
    }

    /// The ports that a branch and its sites name, once for each.
    pub fn spotted_by(&self, branch: &BranchPart) -> Result<Vec<PortNo>, OutOfMemory>
        ensures { IfOk result (λ ports. ports.items ≡ branch_named self.now.parts branch.now) }
    {
        let mut ports = Vec::new(self.alloc);
        add_branch_ports(&mut ports, &self.parts, branch)?;
        Ok(ports)
    }
}
