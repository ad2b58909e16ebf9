//! Who ends the claims, the bookings and the roots of a run, and that each is ended once. Each law is the contract of a function
//! that does nothing.

ghost use Rattle.std.specs.Prelude.{◌≡◌, ℕ, [], true, false, None};
ghost use Rattle.ccr_base.specs.declared.names.Place.TheVariants as places;
ghost use Rattle.ccr_base.specs.declared.names.TaskId.{TaskId};
ghost use Rattle.ccr_base.specs.Names.{has_task};
ghost use Rattle.ccr_places.specs.Ports.{is_claimed_by};
ghost use Rattle.ccr_places.specs.Queues.{is_booked};
ghost use Rattle.ccr_places.specs.NotedTasks.{noted_claimed, noted_unclaimed, noted_booked, noted_unbooked, noted_fired, noted_over};
ghost use Rattle.ccr_runs.specs.EntryRuns.{port_at, queue_at};
ghost use Rattle.ccr_runs.specs.Views.{domain_of_task};
ghost use Rattle.ccr_runs.specs.Visible.{visible};
ghost use Rattle.ccr_rests.specs.Ends.{EndsBooking, EndsClaim, telling_of, tells};
ghost use Rattle.ccr_rests.specs.Given.{RunAt, IsEndedOnce, until};

/// Only the attempt that made a claim ends it, and does so once. The claim that an entry ends is the one that stands at the port;
/// one entry before it made that claim, by the same attempt of the same actor, and no other entry ends it, before or after.
pub fn claims_are_ended_by_their_own_attempts()
    ensures own { (here : RunAt) (port : ℕ) (task : TaskId) → tells noted_unclaimed (places.Port port) task here.entry ≡ true → EndsClaim here.past here.entry.actor here.entry.note }
    ensures stands { (here : RunAt) (port : ℕ) (task : TaskId) → tells noted_unclaimed (places.Port port) task here.entry ≡ true → is_claimed_by (port_at here.past port) task ≡ true }
    ensures ended { (here : RunAt) (port : ℕ) (task : TaskId) → tells noted_unclaimed (places.Port port) task here.entry ≡ true → (port_at (until here) port).claim ≡ None }
    ensures once { (here : RunAt) (port : ℕ) (task : TaskId) → tells noted_unclaimed (places.Port port) task here.entry ≡ true → IsEndedOnce noted_claimed noted_unclaimed (places.Port port) task here }
{}

/// A booking is ended once: by a put, by the cut of a teardown, or by the attempt that gave up. The attempt that books ends its
/// booking itself where it never fires, or puts its task where that has fired; or the actor that admitted the task puts it, or the
/// actor whose firing cut it gives its booking back. No other entry ends it, before or after.
pub fn bookings_are_ended_once()
    ensures who { (here : RunAt) (queue : ℕ) (task : TaskId) → tells noted_unbooked (places.Queue queue) task here.entry ≡ true → EndsBooking here.past here.entry.actor here.entry.note }
    ensures stands { (here : RunAt) (queue : ℕ) (task : TaskId) → tells noted_unbooked (places.Queue queue) task here.entry ≡ true → is_booked (queue_at here.wiring here.past queue) task ≡ true }
    ensures ended { (here : RunAt) (queue : ℕ) (task : TaskId) → tells noted_unbooked (places.Queue queue) task here.entry ≡ true → is_booked (queue_at here.wiring (until here) queue) task ≡ false }
    ensures once { (here : RunAt) (queue : ℕ) (task : TaskId) → tells noted_unbooked (places.Queue queue) task here.entry ≡ true → IsEndedOnce noted_booked noted_unbooked (places.Queue queue) task here }
{}

/// A root is noted over once, at its domain: only the domain at whose branch it fired notes it over, one entry before fired it, and
/// no other entry notes it over, before or after, wherever it is.
pub fn roots_are_noted_over_once()
    ensures domain { (here : RunAt) (root : TaskId) → has_task (noted_over here.entry.note) root ≡ true → here.entry.place ≡ places.Arbiter (domain_of_task here.wiring (visible here.past) root) }
    ensures once { (here : RunAt) (domain : ℕ) (root : TaskId) → tells noted_over (places.Arbiter domain) root here.entry ≡ true → IsEndedOnce noted_fired noted_over (places.Arbiter domain) root here }
    ensures before { (here : RunAt) (root : TaskId) → has_task (noted_over here.entry.note) root ≡ true → telling_of noted_over root here.past ≡ [] }
    ensures later { (here : RunAt) (root : TaskId) → has_task (noted_over here.entry.note) root ≡ true → telling_of noted_over root here.more ≡ [] }
{}
