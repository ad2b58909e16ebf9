//! The ports that spots name, and how often each is named.

ghost use Rattle.std.specs.Prelude.{◌≡◌, [], ◌∷◌, ◌++◌, OnOk};
ghost use Rattle.ccr_wiring.specs.Spots.{times};

use ccr_base::{OutOfMemory, PortNo};
use indexmap::IndexMap;
use std::alloc::Global;
use std::marker::Model;

/// Ports, once for each time that a spot names one. Contracts see them as a list, in the order in which they came; how often one stands there is found by hashing.
#[derive(Drop)]
pub struct Spotted {
    ports: Vec<PortNo>,
    counts: IndexMap<PortNo, usize>,
}

impl Model for Spotted {
    ghost use Rattle.std.specs.Prelude.{List as Listed, ℕ};
    ghost use Rattle.ccr_wiretext.specs.Counts.{AreCounts};

    ghost Value = { Listed ℕ };

    ghost view = { λ spotted. spotted.ports.items };

    ghost invariant = { λ spotted. AreCounts spotted.ports.items spotted.counts };
}

impl Spotted {
    pub fn new(alloc: Global) -> Self
        ensures { result ≡ [] }
    {
        Spotted {
            ports: Vec::new(alloc),
            counts: IndexMap::new(alloc),
        }
    }

    /// How often the port stands there.
    pub fn times(&self, port: PortNo) -> usize
        ensures { result ≡ times port self.now }
    {
        self.counts.get(&port).copied().unwrap_or(0)
    }

    /// The port once more.
    fn add(&mut self, port: PortNo) -> Result<(), OutOfMemory>
        ensures { OnOk result (self.new ≡ self.old ++ port ∷ []) }
    {
        let count = self.times(port);
        self.ports.reserve(1)?;
        self.counts.insert(port, count + 1)?;
        self.ports.push_reserved(port);
        Ok(())
    }

    /// Each of the ports once more.
    pub fn add_all(&mut self, ports: &[PortNo]) -> Result<(), OutOfMemory>
        ensures { OnOk result (self.new ≡ self.old ++ ports.now) }
    {
        for port in ports {
            self.add(*port)?;
        }
        Ok(())
    }
}
