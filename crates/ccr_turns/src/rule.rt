//! The rule of the table, and what each kind of step tells.

ghost use Rattle.ccr_turns.specs.Rule.{Orderly};
ghost use Rattle.ccr_turns.specs.Views.{opening_view, split_left, split_right, joined, spent};
ghost use Rattle.ccr_turns.specs.Steps.{won, left, entered};

use crate::history::{Cell, View};
use crate::kept::{Keep, Kept};
use atomic_table::{Join, Play, Split, TableRule};
use ccr_base::List;
use std::marker::PhantomData;
use std::snapshot::Snapshot;

pub type CellSlot<O> = Option<Cell<O, <O as Kept>::Note>>;

pub type ViewOf<O> = View<<O as Kept>::Note, <O as Kept>::Value>;

/// What the table is told when it is made: the objects as they are then, and how many seats there are, and what is kept.
#[derive(Drop)]
pub struct Plan<O> {
    pub objects: Snapshot<List<O>>,
    pub seats: u32,
    pub keep: Keep,
}

pub struct Order<O> {
    of: PhantomData<O>,
}

impl<O: Kept> TableRule<CellSlot<O>, ViewOf<O>, Plan<O>> for Order<O> {
    ghost holds = { λ key. Orderly O.value O.after O.may O.seen key.keep key.objects.value key.seats };

    ghost first = { λ key. opening_view key.seats };
}

/// Takes a free lock; a held one stays as it is.
pub struct Win<O> {
    of: PhantomData<O>,
}

impl<O: Kept> Play<CellSlot<O>, ViewOf<O>> for Win<O> {
    ghost then = { won O.value O.seen };
}

/// Ends a turn without an entry.
pub struct Leave<O> {
    of: PhantomData<O>,
}

impl<O: Kept> Play<CellSlot<O>, ViewOf<O>> for Leave<O> {
    ghost then = { left };
}

/// Ends a turn with an entry.
pub struct Enter<O> {
    of: PhantomData<O>,
}

impl<O: Kept> Play<CellSlot<O>, ViewOf<O>> for Enter<O> {
    ghost then = { entered };
}

/// A new seat gets the first log.
pub struct SplitSeat;

impl<N, X> Split<View<N, X>> for SplitSeat {
    ghost left = { split_left };

    ghost right = { split_right };
}

/// A seat takes over the logs of another.
pub struct Both;

impl<N, X> Join<View<N, X>> for Both {
    ghost both = { joined };

    ghost spent = { spent };
}
