//! Domains: the Interleaves that share one protection.

ghost use Rattle.std.specs.Prelude.{◌≡◌};
ghost use Rattle.ccr_wiring.specs.Domains.{least_with, domain_of};

use crate::DomainPart;
use ccr_base::{ArbiterNo, has_number};

/// The least of the number and these.
fn least_with(first: ArbiterNo, numbers: &[ArbiterNo]) -> ArbiterNo
    ensures { result ≡ least_with first numbers.now }
{
    let mut least = first;
    for number in numbers {
        least = least.min(*number);
    }
    least
}

pub(crate) fn domain_of(domains: &[DomainPart], arbiter: ArbiterNo) -> ArbiterNo
    ensures { result ≡ domain_of domains.now arbiter }
{
    for domain in domains {
        let members = domain.members.as_slice();
        if has_number(members, arbiter) {
            return least_with(arbiter, members);
        }
    }
    arbiter
}
