//! What holds of every run. Each law is the contract of a function that does nothing.

ghost use Rattle.std.specs.Prelude.{◌≡◌, ◌≤◌, ℕ, true, All, [], Some, slice_get};
ghost use Rattle.std.specs.Option.{is_some};
ghost use Rattle.ccr_wiring.specs.Actors.{actor_count};
ghost use Rattle.ccr_model.specs.Firings.{fired};
ghost use Rattle.ccr_model.specs.Legal.{IsLegal, is_covered};
ghost use Rattle.ccr_model.specs.Order.{next_attempt};
ghost use Rattle.ccr_claim.specs.Wired.{IsKnown};
ghost use Rattle.ccr_object.specs.declared.deed.Deed.{Deed};
ghost use Rattle.ccr_object.specs.Starts.{places_of};
ghost use Rattle.ccr_runs.specs.declared.acts.Act.{Act};
ghost use Rattle.ccr_runs.specs.Played.{given_in, entries_of, number_at};
ghost use Rattle.ccr_runs.specs.EntryRuns.{Lacks, IsRunAfter, replies_of, notes_at};
ghost use Rattle.ccr_runs.specs.Places.{note_of};
ghost use Rattle.ccr_runs.specs.Visible.{visible};
ghost use Rattle.ccr_net.specs.Lawful.{AreNextToo, IsPlayedRun, OfNextAsks, OfPlayedRuns, OfRuns};

/// What is visible of a run is legal and covered, in each valid wiring: attempts given up, busy ports, rivals, full
/// throttle queues, claims that stand, cut and shed tasks and running out of memory at any step of any actor are among the runs.
pub fn visible_runs_are_legal_and_covered()
    ensures legal { OfRuns (λ wiring workers entries. IsLegal wiring (visible entries)) }
    ensures covered { OfRuns (λ wiring workers entries. is_covered wiring (visible entries) ≡ true) }
{}

/// The actor behind the posters and the workers fires nothing in a run, so it may finish what is visible of it.
pub fn closers_are_new_to_runs()
    ensures attempts { OfRuns (λ wiring workers entries. next_attempt (actor_count wiring workers) (fired (visible entries)) ≤ 1) }
{}

/// The next ask of each actor of a run meets the condition of its place: the place has a note for it. So each step that an
/// actor would make next can be made, and no attempt, put or end is left out of a run for want of its condition.
pub fn asks_meet_their_conditions()
    ensures met { OfNextAsks (λ wiring entries one. is_some (note_of wiring one.place (notes_at entries one.place) one.ask) ≡ true) }
{}

/// The next ask of each actor of a run names no port, queue, cause or spot that the wiring doesn't have, the arbiter of its task
/// is the number of a domain, and it is meant for one of the wiring's places, which stands under its number.
pub fn asks_name_what_the_wiring_has()
    ensures known { OfNextAsks (λ wiring entries one. IsKnown wiring one.ask) }
    ensures place { OfNextAsks (λ wiring entries one. slice_get (places_of wiring) (number_at wiring one.place) ≡ Some one.place) }
{}

/// A run as the objects of the places play it, whole tasks included, is a run of the wiring: each act is met and adds the
/// entry that its actor's next ask makes, and each actor is replied what the run replies.
pub fn played_runs_are_runs()
    ensures run { OfPlayedRuns (λ wiring workers lacks acts. IsRunAfter wiring workers lacks [] (entries_of wiring acts)) }
    ensures met { OfPlayedRuns (λ wiring workers lacks acts. All (λ (act : Act Deed). is_some act.note.note ≡ true) acts) }
    ensures replies { OfPlayedRuns (λ wiring workers lacks acts. (actor : ℕ) → given_in wiring lacks acts actor ≡ replies_of wiring (entries_of wiring acts) actor) }
{}

/// A run as the objects play it, that runs out of memory at some steps, is one that runs out of memory at other steps, where each
/// actor's steps are what it asks next then too.
pub fn played_runs_follow_their_steps()
    ensures { OfPlayedRuns (λ wiring workers lacks acts. (others : Lacks) → AreNextToo wiring workers others acts → IsPlayedRun wiring workers others acts) }
{}
