//! The queue.

ghost use Rattle.std.specs.Prelude.{◌≡◌, ◌+◌, ◌-◌, ◌∷◌, [], ◌++◌, drop, slice_get, IsTrue, IfOk, OnErr, Option, Some, None, if◌then◌else◌, nat_le};
ghost use Rattle.std.specs.Option.{option_map};
ghost use Rattle.ccr_places.specs.Queues.{start, may_book as can_book, is_booked, fullness as fullness_at, fresh_count, drop_count, book_note, put_note, take_note, after_book, after_unbook, with_newest, without_dropped, after_put, after_take, after, IsGiven};
ghost use Rattle.ccr_places.specs.declared.notes.Note.TheVariants.{Book, Unbook, Put, Take};
ghost use Rattle.ccr_queue.specs.Answers.{full_of};

use crate::stage::{self, QueueStage, QueuedTask};
use ccr_base::{OutOfMemory, Policy, QueueNo, Task, TaskId};
use std::alloc::Global;
use std::collections::{HashMap, VecDeque};
use std::hash::{BuildHasherDefault, FoldHasher};
use std::marker::Model;

/// The answer to a booking: a throttle that is full tells its number.
#[derive(Clone, Copy, PartialEq, Eq)]
pub enum Booked {
    Yes,
    Full(u32),
}

/// A queue of tasks. A task is booked before it fires, so that its put finds room, and is queued by its put.
#[derive(Drop)]
pub struct QueueObject {
    number: QueueNo,
    policy: Policy,
    /// The booked and the queued tasks.
    stages: HashMap<TaskId, QueueStage, BuildHasherDefault<FoldHasher>>,
    /// The oldest first, with room for all tasks of the table.
    queued: VecDeque<QueuedTask>,
    /// How many of the booked and queued tasks don't resume a suspended one.
    fresh: usize,
}

impl Model for QueueObject {
    ghost use Rattle.std.specs.Prelude.{map};
    ghost use Rattle.std.specs.VecDeque.{deque_capacity};
    ghost use Rattle.ccr_places.specs.Queues.{QueueTasks, queue_tasks_code};
    ghost use Rattle.ccr_queue.specs.QueueTies.{Tied, queued_of, state_of};

    ghost Value = { QueueTasks };

    ghost coded = { queue_tasks_code };

    ghost view = { λ queue. record { state = state_of queue.number queue.policy queue.stages.entries queue.queued.items; tasks = map (λ queued. queued.task) queue.queued.items } };

    ghost invariant = { λ queue. Tied queue.stages.entries (map queued_of queue.queued.items) queue.fresh (deque_capacity queue.queued) };
}

impl QueueObject {
    /// An empty queue.
    pub fn new(alloc: Global, number: QueueNo, policy: Policy) -> QueueObject
        ensures { result ≡ record { state = start number policy; tasks = [] } }
    {
        QueueObject {
            number,
            policy,
            stages: HashMap::with_hasher(alloc, BuildHasherDefault::new()),
            queued: VecDeque::new(alloc),
            fresh: 0,
        }
    }

    /// The number of the queue in the wiring.
    pub fn number(&self) -> QueueNo
        ensures { result ≡ self.now.state.number }
    {
        self.number
    }

    /// Whether the task is neither booked nor queued.
    pub fn may_book(&self, t: TaskId, _resumes: bool) -> bool
        ensures { result ≡ can_book self.now.state t }
    {
        !self.stages.contains_key(&t)
    }

    /// Books the task, which takes the memory for its put. A task that resumes a suspended one needs no room.
    pub fn book(&mut self, t: TaskId, resumes: bool) -> Result<Booked, OutOfMemory>
        requires { IsTrue (can_book self.old.state t) }
        ensures note { IfOk result (λ booked. full_of booked ≡ book_note self.old.state resumes) }
        ensures state { IfOk result (λ booked. self.new ≡ record self.old { state = after_book self.old.state t resumes (full_of booked) }) }
        ensures given { IfOk result (λ booked. IsGiven self.old.state (Book t resumes (full_of booked))) }
        ensures step { IfOk result (λ booked. self.new.state ≡ after self.old.state (Book t resumes (full_of booked))) }
        ensures err { OnErr result (self.new ≡ self.old) }
    {
        if !resumes {
            if let Some(n) = self.fullness() {
                return Ok(Booked::Full(n));
            }
        }
        self.queued
            .reserve(self.stages.len() - self.queued.len() + 1)?;
        if resumes {
            self.stages.insert(t, QueueStage::Resuming)?;
        } else {
            self.stages.insert(t, QueueStage::Fresh)?;
            self.fresh += 1;
        }
        Ok(Booked::Yes)
    }

    /// The number of a throttle that has no room for one more task.
    fn fullness(&self) -> Option<u32>
        ensures { result ≡ fullness_at self.now.state.policy (fresh_count self.now.state) }
    {
        match self.policy {
            Policy::Throttle(n) if self.fresh >= n as usize => Some(n),
            _ => None,
        }
    }

    /// Whether the task is booked.
    pub fn may_unbook(&self, t: TaskId) -> bool
        ensures { result ≡ is_booked self.now.state t }
    {
        stage::is_booked(self.stages.get(&t).copied())
    }

    /// Ends the booking. It takes no memory.
    pub fn unbook(&mut self, t: TaskId)
        requires { IsTrue (is_booked self.old.state t) }
        ensures state { self.new ≡ record self.old { state = after_unbook self.old.state t } }
        ensures given { IsGiven self.old.state (Unbook t) }
        ensures step { self.new.state ≡ after self.old.state (Unbook t) }
    {
        let stage = self.stages.remove(&t);
        self.fresh -= stage::fresh_count(stage);
    }

    /// Whether the task is booked.
    pub fn may_put(&self, task: &Task) -> bool
        ensures { result ≡ is_booked self.now.state task.now.id }
    {
        self.may_unbook(task.id)
    }

    /// Ends the booking, queues the task last, and hands out the oldest task where the policy drops it. It takes no memory.
    pub fn put(&mut self, task: Task) -> Option<Task>
        requires { IsTrue (is_booked self.old.state task.id) }
        ensures note { option_map (λ t. t.id) result ≡ put_note self.old.state }
        ensures reply { result ≡ (if nat_le 1 (drop_count self.old.state) then slice_get self.old.tasks 0 else None) }
        ensures state { self.new ≡ record {
          state = after_put self.old.state task.id;
          tasks = drop (drop_count self.old.state) self.old.tasks ++ task ∷ [];
        } }
        ensures given { IsGiven self.old.state (Put task.id (option_map (λ t. t.id) result)) }
        ensures step { self.new.state ≡ after self.old.state (Put task.id (option_map (λ t. t.id) result)) }
    {
        let dropped = self.drop_oldest();
        self.push(task);
        dropped
    }

    /// Takes out the oldest task where a discard queue is full.
    fn drop_oldest(&mut self) -> Option<Task>
        ensures note { option_map (λ t. t.id) result ≡ put_note self.old.state }
        ensures reply { result ≡ (if nat_le 1 (drop_count self.old.state) then slice_get self.old.tasks 0 else None) }
        ensures state { self.new ≡ record {
          state = without_dropped self.old.state;
          tasks = drop (drop_count self.old.state) self.old.tasks;
        } }
    {
        match self.policy {
            Policy::Discard(n) if self.queued.len() >= n as usize => self.take(),
            _ => None,
        }
    }

    /// Queues the booked task last.
    fn push(&mut self, task: Task)
        requires { IsTrue (is_booked self.old.state task.id) }
        ensures { self.new ≡ record {
          state = with_newest self.old.state task.id;
          tasks = self.old.tasks ++ task ∷ [];
        } }
    {
        let Ok(stage) = self.stages.insert(task.id, QueueStage::Queued) else {
            unreachable!();
        };
        let resumes = stage::is_resuming(stage);
        self.queued.push_back_reserved(QueuedTask { task, resumes });
    }

    /// Takes out the oldest task. It takes no memory.
    pub fn take(&mut self) -> Option<Task>
        ensures note { option_map (λ t. t.id) result ≡ take_note self.old.state }
        ensures reply { result ≡ slice_get self.old.tasks 0 }
        ensures state { self.new ≡ record {
          state = after_take self.old.state;
          tasks = drop 1 self.old.tasks;
        } }
        ensures given { IsGiven self.old.state (Take (option_map (λ t. t.id) result)) }
        ensures step { self.new.state ≡ after self.old.state (Take (option_map (λ t. t.id) result)) }
    {
        let QueuedTask { task, resumes } = self.queued.pop_front()?;
        self.stages.remove(&task.id);
        self.fresh -= usize::from(!resumes);
        Some(task)
    }
}
