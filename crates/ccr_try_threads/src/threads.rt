//! A run on threads: a port that one actor has marked stops nobody at another port.

use crate::compare::same;
use ccr_base::{Gate, List, Name, Point};
use ccr_cli::run_ccr;
use ccr_io::{MemorySink, MemorySource};
use std::alloc::Global;
use std::process::Abort;
use std::sync::atomic::{AtomicU64, Ordering};
use std::test::*;

/// A join on `a` and `b`, a receiver on `c`, a poster to `a` and one to `c`.
const WIRING: &[u8] =
    b"ccr 1\nqueue q unbounded\nhandler h\nend\nport a\nport b\nport c\nreceive j always q h take a 1 any b 1 any\nreceive r always q h take c 1 any\nposter p0\npost a 1\nend\nposter p1\npost c 2\nend\n";

/// How often an actor looks whether the other has come. Many seconds of looking, since a busy machine may let the other thread wait.
const LOOKS: u64 = 20_000_000_000;

/// Holds poster 0 behind its first claim until poster 1 has fired, and poster 1 behind its firing until poster 0 has claimed.
#[derive(Drop)]
struct Rivals {
    claimed: AtomicU64,
    fired: AtomicU64,
    /// How many of the two saw the other.
    met: AtomicU64,
}

impl Rivals {
    fn meet(&self, mine: &AtomicU64, other: &AtomicU64) {
        if mine.load(Ordering::SeqCst) == 1 {
            return;
        }
        mine.store(1, Ordering::SeqCst);
        for _ in 0..LOOKS {
            if other.load(Ordering::SeqCst) == 1 {
                self.met.fetch_add(1, Ordering::SeqCst);
                return;
            }
        }
    }
}

impl Gate for Rivals {
    fn at(&self, point: Point, actor: u32) {
        match (point, actor) {
            (Point::Claimed, 0) => self.meet(&self.claimed, &self.fired),
            (Point::Committed, 1) => self.meet(&self.fired, &self.claimed),
            _ => {}
        }
    }
}

fn listed<T: Copy>(rt: &impl Abort, alloc: Global, items: &[T]) -> List<T> {
    List::from_vec(Vec::from_slice(alloc, items).expect(rt, "memory"))
}

fn words(rt: &impl Abort, alloc: Global) -> List<Name> {
    let mut words = List::new(alloc);
    for word in ["run", "--workers", "1"] {
        let word = listed(rt, alloc, word.as_bytes());
        assert!(rt; words.push(word).is_ok());
    }
    words
}

#[test]
fn marked_port_stops_nobody(rt: HostRuntime) {
    let alloc = rt.alloc();
    let words = words(&rt, alloc);
    let mut source = MemorySource::new(listed(&rt, alloc, WIRING), List::new(alloc));
    let mut sink = MemorySink::new(alloc, 10_000, List::new(alloc)).expect(&rt, "memory");
    let gate = Rivals {
        claimed: AtomicU64::new(0),
        fired: AtomicU64::new(0),
        met: AtomicU64::new(0),
    };
    let status = run_ccr(&rt, words.as_slice(), &mut source, &mut sink, &gate);
    same(&rt, status, 0);
    same(&rt, gate.met.load(Ordering::SeqCst), 2);
}
