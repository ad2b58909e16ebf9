//! Passes through a space: step by step, and side by side in threads.

ghost use Rattle.std.specs.Prelude.{All};
ghost use Rattle.ccr_space.specs.Spaces.{IsPassOf, IsSpace};

use crate::compare::same;
use ccr_base::{Gate, OpenGate, Point};
use ccr_space::{Pass, Space, Step};
use ccr_wiretext::{MAX_WIRING_TEXT, read_wiring};
use ccr_wiring::Wiring;
use std::alloc::Global;
use std::process::Abort;
use std::sync::Wait;
use std::sync::atomic::{AtomicU64, Ordering};
use std::test::*;

/// A receiver, and a poster of one message for it.
const ONE_POST: &str = "ccr 1
queue q unbounded
port a
handler h
end
receive r always q h take a 1 any
poster p
post a 7
end
";

/// A concurrent branch, and a poster of messages for two of its tasks.
const TWO_TASKS: &str = "ccr 1
queue q unbounded
port a
handler h
end
interleave i
concurrent g q h take a 1 any
end
poster p
post a 1
post a 2
end
";

/// How often a handler looks whether the other has started. Many seconds of looking, since a busy machine may let the other thread wait.
const LOOKS: u64 = 20_000_000_000;

/// The wiring that the text says.
pub fn wiring_of(rt: &impl Abort, alloc: Global, text: &str) -> Wiring {
    assert!(rt; text.len() <= MAX_WIRING_TEXT);
    read_wiring(alloc, text.as_bytes())
        .ok()
        .expect(rt, "no wiring")
}

/// Makes so many steps of the pass.
fn make<R: Wait + Abort>(rt: &R, space: &Space<'_>, pass: &mut Pass<'_>, count: u32)
    requires space { IsSpace space.now }
    requires pass { IsPassOf space.now pass.old }
    ensures { IsPassOf space.now pass.new }
{
    for _ in 0..count {
        same(rt, space.step(rt, pass), Step::Made);
    }
}

/// The first pass makes six steps, and then the second three.
fn make_nine<R: Wait + Abort>(rt: &R, space: &Space<'_>, passes: &mut [Pass<'_>])
    requires space { IsSpace space.now }
    requires passes { All (λ pass. IsPassOf space.now pass) passes.old }
{
    assert!(rt; passes.len() == 2);
    make(rt, space, &mut passes[0], 6);
    make(rt, space, &mut passes[1], 3);
}

/// The poster posts, claims and fires, and the worker runs the task.
#[test]
fn each_of_nine_turns_is_made(rt: HostRuntime) {
    let alloc = rt.alloc();
    let wiring = wiring_of(&rt, alloc, ONE_POST);
    let (space, passes) = Space::make(alloc, &wiring, 1).expect(&rt, "memory");
    let mut passes = passes.into_vec();
    make_nine(&rt, &space, passes.as_mut_slice());
}

/// Holds the first that starts until another has started.
#[derive(Drop)]
struct Meeting {
    started: AtomicU64,
    /// How many saw two started.
    met: AtomicU64,
}

impl Gate for Meeting {
    fn at(&self, point: Point, _actor: u32) {
        if point != Point::Started {
            return;
        }
        self.started.fetch_add(1, Ordering::SeqCst);
        for _ in 0..LOOKS {
            if self.started.load(Ordering::SeqCst) == 2 {
                self.met.fetch_add(1, Ordering::SeqCst);
                return;
            }
        }
    }
}

/// Brings the first of three passes to rest.
fn rest_first<R: Wait + Abort>(rt: &R, space: &Space<'_>, passes: &mut Vec<Pass<'_>>)
    requires space { IsSpace space.now }
    requires passes { All (λ pass. IsPassOf space.now pass) passes.old.items }
    ensures { All (λ pass. IsPassOf space.now pass) passes.new.items }
{
    assert!(rt; passes.len() == 3);
    space.run(rt, &OpenGate, &mut passes[0]);
}

/// The poster comes to rest first, so that both tasks are queued; then all go on side by side, and each of two workers starts one.
#[test]
fn two_handlers_at_once(rt: HostRuntime) {
    let alloc = rt.alloc();
    let wiring = wiring_of(&rt, alloc, TWO_TASKS);
    let (space, passes) = Space::make(alloc, &wiring, 2).expect(&rt, "memory");
    let mut passes = passes.into_vec();
    rest_first(&rt, &space, &mut passes);
    let gate = Meeting {
        started: AtomicU64::new(0),
        met: AtomicU64::new(0),
    };
    let through = space.all_through(&rt, &gate, passes);
    assert!(rt; through.is_ok());
    same(&rt, gate.met.load(Ordering::SeqCst), 2);
}
