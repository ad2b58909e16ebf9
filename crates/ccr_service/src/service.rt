//! A checked service.

ghost use Rattle.std.specs.Prelude.{◌≡◌};
ghost use Rattle.ccr_service.specs.Services.{IsService};

use crate::ServiceParts;
use std::marker::Model;

/// A service whose parts keep their limits. Contracts see its parts.
#[derive(Drop)]
pub struct Service {
    parts: ServiceParts,
}

impl Model for Service {
    ghost use Rattle.ccr_service.specs.declared.parts.ServiceParts.{ServiceParts};
    ghost use Rattle.ccr_service.specs.Services.{IsService};

    ghost Value = { ServiceParts };

    ghost view = { λ service. service.parts };

    ghost invariant = { λ service. IsService service.parts };
}

impl Service {
    /// The service with these parts.
    pub(crate) fn of(parts: ServiceParts) -> Self
        requires { IsService parts }
        ensures { result ≡ parts }
    {
        Service { parts }
    }

    /// What the service says. An ask names its operation by its index, from 0.
    pub fn parts(&self) -> &ServiceParts
        ensures parts { result.now ≡ self.now }
        ensures service { IsService self.now }
    {
        &self.parts
    }
}
