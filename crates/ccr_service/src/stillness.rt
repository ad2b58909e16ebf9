//! A quiet end without awaits. Each law is the contract of a function that does nothing.

ghost use Rattle.std.specs.Prelude.{◌≤◌, length};
ghost use Rattle.ccr_base.specs.Bounds.{most_actors};
ghost use Rattle.ccr_wiring.specs.declared.parts.Parts.{Parts};
ghost use Rattle.ccr_wiring.specs.Valid.{HasQueues};
ghost use Rattle.ccr_service.specs.Stillness.{EndsStill, HasNoAwaits};

/// Of a wiring with its queues, at most 32 posters and no handler that awaits: once nothing more is allowed after a legal history,
/// no task waits, is ready, is queued or runs.
pub fn quiet_is_still()
    ensures { (wiring : Parts) → HasQueues wiring → HasNoAwaits wiring → length wiring.posters ≤ most_actors → EndsStill wiring }
{}
