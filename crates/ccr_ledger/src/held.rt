//! The messages of a port.

ghost use Rattle.std.specs.Prelude.{◌≡◌, ◌<◌, ◌≤◌, ℕ, [], ◌∷◌, ◌++◌, IfOk, OnOk, OnErr, length, map, take, drop, nat_le};
ghost use Rattle.std.specs.List.{slice_get};
ghost use Rattle.ccr_base.specs.declared.messages.Msg.{Msg};
ghost use Rattle.ccr_base.specs.Selection.{fitting};
ghost use Rattle.ccr_ledger.specs.Lanes.{AreLanes, HasPrefix, HasLane, IsLane, entered, entered_item, fitting_indices, is_here, lost, name_at, names_at};
ghost use Rattle.ccr_ledger.specs.Taken.{IsLeftOf, same_front, shared, without_first, without_some};

use crate::item::Item;
use crate::lane::IndexLane;
use ccr_base::{Msg, MsgId, OutOfMemory, Pred, Value};
use std::alloc::Global;
use std::marker::Model;

/// What a port holds, oldest first. Each item is of one message that was posted, and is empty once that was taken.
#[derive(Drop)]
pub struct HeldMessages {
    alloc: Global,
    items: Vec<Item>,
    lanes: Vec<IndexLane>,
    /// How many messages are there.
    left: usize,
}

impl Model for HeldMessages {
    ghost use Rattle.std.specs.Prelude.{List as Listed};
    ghost use Rattle.ccr_base.specs.declared.messages.Msg.{Msg};
    ghost use Rattle.std.specs.Prelude.{◌≡◌, length};
    ghost use Rattle.ccr_ledger.specs.Lanes.{present, AreLanes};

    ghost Value = { Listed Msg };

    ghost view = { λ port. present port.items.items };

    ghost invariant = { λ port. AreLanes port.items.items port.lanes.items × (port.left ≡ length (present port.items.items)) };
}

/// Enters the index into each lane whose predicate the value satisfies.
fn enter_all(lanes: &mut Vec<IndexLane>, index: usize, value: Value) -> Result<(), OutOfMemory>
    ensures { OnOk result (lanes.new.items ≡ map (entered index value) lanes.old.items) }
{
    for number in 0..lanes.len() {
        let lane = &mut lanes[number];
        lane.enter(index, value)?;
    }
    Ok(())
}

/// A message of this value was taken: it no longer counts in the lanes whose predicates it satisfies.
fn lose_all(lanes: &mut Vec<IndexLane>, value: Value)
    ensures { lanes.new.items ≡ map (lost value) lanes.old.items }
{
    for number in 0..lanes.len() {
        let lane = &mut lanes[number];
        lane.lose(value);
    }
}

/// Whether the message of the index is still there.
fn is_here(items: &[Item], index: usize) -> bool
    ensures { result ≡ is_here items.now index }
{
    match items.get(index) {
        Some(item) => item.is_here(),
        None => false,
    }
}

/// Indices of messages that are gone leave the lane, until so many at its front, or all, are of messages that are there.
fn tidy(items: &[Item], lane: &mut IndexLane, most: usize)
    requires { IsLane items.now lane.old }
    ensures lane { IsLane items.now lane.new }
    ensures pred { lane.new.pred ≡ lane.old.pred }
    ensures prefix { take most lane.new.indices ≡ take most (fitting_indices 0 lane.old.pred items.now) }
{
    let mut number = 0;
    'index: while number < most {
        let Some(index) = lane.at(number) else {
            return;
        };
        if is_here(items, index) {
            number += 1;
        } else {
            lane.remove(number);
        }
    }
}

/// Enters the index, where a message is there that satisfies the lane's predicate.
fn enter_item(lane: &mut IndexLane, index: usize, item: &Item) -> Result<(), OutOfMemory>
    ensures { OnOk result (lane.new ≡ entered_item index item.now lane.old) }
{
    match item.value() {
        Some(value) => lane.enter(index, value),
        None => Ok(()),
    }
}

/// A lane of the predicate with the indices of all messages that satisfy it.
fn lane_of(alloc: Global, items: &[Item], pred: Pred) -> Result<IndexLane, OutOfMemory>
    ensures lane { IfOk result (IsLane items.now) }
    ensures pred { IfOk result (λ lane. lane.pred ≡ pred) }
{
    let mut lane = IndexLane::new(alloc, pred);
    for index in 0..items.len() {
        enter_item(&mut lane, index, &items[index])?;
    }
    Ok(lane)
}

/// The number of the lane of the predicate, which is made where there is none, and only there.
fn lane_for(
    alloc: Global,
    items: &[Item],
    lanes: &mut Vec<IndexLane>,
    pred: Pred,
) -> Result<usize, OutOfMemory>
    requires { AreLanes items.now lanes.old.items }
    ensures lanes { AreLanes items.now lanes.new.items }
    ensures found { IfOk result (λ number. HasLane lanes.new.items number pred) }
    ensures once { (number : ℕ) → HasLane lanes.old.items number pred → lanes.new.items ≡ lanes.old.items }
{
    for number in 0..lanes.len() {
        if lanes[number].is_of(pred) {
            return Ok(number);
        }
    }
    let number = lanes.len();
    lanes.push(lane_of(alloc, items, pred)?)?;
    Ok(number)
}

/// The number of the lane of the predicate, which is tidy up to so many indices.
fn tidy_lane(
    alloc: Global,
    items: &[Item],
    lanes: &mut Vec<IndexLane>,
    pred: Pred,
    most: usize,
) -> Result<usize, OutOfMemory>
    requires { AreLanes items.now lanes.old.items }
    ensures lanes { AreLanes items.now lanes.new.items }
    ensures found { IfOk result (λ number. HasPrefix lanes.new.items number (take most (fitting_indices 0 pred items.now)) most) }
{
    let number = lane_for(alloc, items, lanes, pred)?;
    tidy(items, &mut lanes[number], most);
    Ok(number)
}

/// The names of the messages of the lane's first indices, at most so many, come behind those that are there.
fn add_first_names(
    items: &[Item],
    lane: &IndexLane,
    most: usize,
    names: &mut Vec<MsgId>,
) -> Result<(), OutOfMemory>
    ensures { OnOk result (names.new.items ≡ names.old.items ++ names_at items.now (take most lane.now.indices)) }
{
    for number in 0..most {
        let Some(index) = lane.at(number) else {
            return Ok(());
        };
        if let Some(name) = name_at(items, index) {
            names.push(name)?;
        }
    }
    Ok(())
}

/// The name of the message of the index, while it is there.
fn name_at(items: &[Item], index: usize) -> Option<MsgId>
    ensures { result ≡ name_at items.now index }
{
    items.get(index)?.id()
}

/// How many of the names, from the first on, are the same.
fn count_shared(oldest: &[MsgId], names: &[MsgId]) -> usize
    ensures count { result ≡ same_front oldest.now names.now }
    ensures few { result ≤ length names.now }
{
    let [name, later @ ..] = names else {
        return 0;
    };
    let [first, others @ ..] = oldest else {
        return 0;
    };
    if first == name {
        count_shared(others, later) + 1
    } else {
        0
    }
}

/// The index of the oldest message that satisfies the predicate.
fn first_fitting(
    alloc: Global,
    items: &[Item],
    lanes: &mut Vec<IndexLane>,
    pred: Pred,
) -> Result<Option<usize>, OutOfMemory>
    requires { AreLanes items.now lanes.old.items }
    ensures lanes { AreLanes items.now lanes.new.items }
    ensures index { IfOk result (λ index. index ≡ slice_get (fitting_indices 0 pred items.now) 0) }
{
    let number = tidy_lane(alloc, items, lanes, pred, 1)?;
    Ok(lanes[number].at(0))
}

impl HeldMessages {
    /// An empty port.
    pub fn new(alloc: Global) -> HeldMessages
        ensures { result ≡ [] }
    {
        HeldMessages {
            alloc,
            items: Vec::new(alloc),
            lanes: Vec::new(alloc),
            left: 0,
        }
    }

    /// The message becomes the youngest.
    pub fn post(&mut self, message: Msg) -> Result<(), OutOfMemory>
        ensures ok { OnOk result (self.new ≡ self.old ++ message ∷ []) }
        ensures err { OnErr result (self.new ≡ self.old) }
    {
        let (index, value) = (self.items.len(), message.value);
        let item = Item::of(self.alloc, message)?;
        self.items.push(Item::gone())?;
        if let Err(refused) = enter_all(&mut self.lanes, index, value) {
            self.lanes.clear();
            return Err(refused);
        }
        self.items[index] = item;
        self.left += 1;
        Ok(())
    }

    /// Whether so many messages satisfy the predicate.
    pub fn has(&mut self, pred: Pred, least: usize) -> Result<bool, OutOfMemory>
        ensures enough { IfOk result (λ enough. enough ≡ nat_le least (length (fitting pred self.old))) }
        ensures kept { self.new ≡ self.old }
    {
        let number = lane_for(self.alloc, &self.items, &mut self.lanes, pred)?;
        Ok(least <= self.lanes[number].count())
    }

    /// The names of the oldest messages that satisfy the predicate, at most so many, come behind those that are there.
    pub(crate) fn add_names(
        &mut self,
        pred: Pred,
        most: usize,
        names: &mut Vec<MsgId>,
    ) -> Result<(), OutOfMemory>
        ensures names { OnOk result (names.new.items ≡ names.old.items ++ map (λ (m : Msg). m.id) (take most (fitting pred self.old))) }
        ensures kept { self.new ≡ self.old }
    {
        let number = tidy_lane(self.alloc, &self.items, &mut self.lanes, pred, most)?;
        add_first_names(&self.items, &self.lanes[number], most, names)
    }

    /// The names of the oldest messages that satisfy the predicate, at most so many.
    pub fn names(&mut self, pred: Pred, most: usize) -> Result<Vec<MsgId>, OutOfMemory>
        ensures names { IfOk result (λ names. names.items ≡ map (λ (m : Msg). m.id) (take most (fitting pred self.old))) }
        ensures kept { self.new ≡ self.old }
    {
        let mut names = Vec::new(self.alloc);
        self.add_names(pred, most, &mut names)?;
        Ok(names)
    }

    /// Takes out the oldest message that satisfies the predicate.
    pub fn take(&mut self, pred: Pred) -> Result<Option<Msg>, OutOfMemory>
        ensures message { IfOk result (λ message. message ≡ slice_get (fitting pred self.old) 0) }
        ensures rest { OnOk result (self.new ≡ without_first pred self.old) }
        ensures err { OnErr result (self.new ≡ self.old) }
    {
        let Some(index) = first_fitting(self.alloc, &self.items, &mut self.lanes, pred)? else {
            return Ok(None);
        };
        let Some(message) = self.items[index].take(self.alloc) else {
            return Ok(None);
        };
        lose_all(&mut self.lanes, message.value);
        self.left = self.left.saturating_sub(1);
        Ok(Some(message))
    }

    /// Takes out so many of the oldest messages that satisfy the predicate, or all of them where they are fewer. They are put
    /// behind those that were taken before.
    pub fn take_some(
        &mut self,
        pred: Pred,
        most: usize,
        taken: &mut Vec<Msg>,
    ) -> Result<(), OutOfMemory>
        ensures rest { OnOk result (self.new ≡ without_some most pred self.old) }
        ensures left { IsLeftOf self.old self.new }
        ensures taken { OnOk result (taken.new.items ≡ taken.old.items ++ take most (fitting pred self.old)) }
    {
        for _ in 0..most {
            if let Some(message) = self.take(pred)? {
                taken.push(message)?;
            }
        }
        Ok(())
    }

    /// Takes out so many of the oldest messages, or all of them where they are fewer, and puts them behind those that were
    /// taken before.
    pub fn take_oldest(&mut self, count: usize, taken: &mut Vec<Msg>) -> Result<(), OutOfMemory>
        ensures rest { OnOk result (self.new ≡ drop count self.old) }
        ensures left { IsLeftOf self.old self.new }
        ensures taken { OnOk result (taken.new.items ≡ taken.old.items ++ take count self.old) }
    {
        self.take_some(Pred::Any, count, taken)
    }

    /// The names of the oldest messages, at most so many.
    pub fn oldest_names(&mut self, most: usize) -> Result<Vec<MsgId>, OutOfMemory>
        ensures names { IfOk result (λ names. names.items ≡ map (λ (m : Msg). m.id) (take most self.old)) }
        ensures kept { self.new ≡ self.old }
    {
        self.names(Pred::Any, most)
    }

    /// How many of the names, from the first on, are those of the oldest messages.
    pub fn shared(&mut self, names: &[MsgId]) -> Result<usize, OutOfMemory>
        ensures shared { IfOk result (λ count. count ≡ shared self.old names.now) }
        ensures kept { self.new ≡ self.old }
    {
        let oldest = self.names(Pred::Any, names.len())?;
        Ok(count_shared(&oldest, names))
    }

    /// How many messages there are.
    pub fn len(&self) -> usize
        ensures { result ≡ length self.now }
    {
        self.left
    }
}
