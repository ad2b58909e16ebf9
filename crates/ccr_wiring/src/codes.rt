//! The codes of refusal that parts can have.

ghost use Rattle.std.specs.Prelude.{◌≡◌, IfOk};
ghost use Rattle.ccr_wiring.specs.Codes.{code_of};

use crate::Parts;
use crate::groups::{has_branchless, has_misgrouped};
use crate::limits::has_outside;
use crate::names::{declared_names, has_malformed, has_repeated};
use crate::references::has_dangling;
use crate::repeats::has_repeat;
use crate::spots::has_crowded_port;
use crate::versions::{has_newer, has_strange_version};
use ccr_base::OutOfMemory;
use std::alloc::Global;

/// The least code that stands in the parts.
#[tactic(auto, unfolding(crate::specs::Codes::code_of))]
pub(crate) fn code_of(alloc: Global, parts: &Parts) -> Result<Option<u8>, OutOfMemory>
    ensures { IfOk result (λ code. code ≡ code_of parts.now) }
{
    if has_strange_version(parts) {
        return Ok(Some(2));
    }
    if has_misgrouped(parts) {
        return Ok(Some(3));
    }
    if has_newer(parts) {
        return Ok(Some(5));
    }
    let names = declared_names(alloc, parts)?;
    if has_repeated(alloc, &names)? {
        return Ok(Some(6));
    }
    if has_dangling(parts) {
        return Ok(Some(7));
    }
    if has_repeat(alloc, parts)? {
        return Ok(Some(8));
    }
    if has_outside(parts) {
        return Ok(Some(10));
    }
    if has_branchless(parts) {
        return Ok(Some(11));
    }
    if has_crowded_port(alloc, parts)? {
        return Ok(Some(12));
    }
    if has_malformed(&names) {
        return Ok(Some(14));
    }
    Ok(None)
}
