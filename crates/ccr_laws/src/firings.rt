//! What every firing of a legal history takes, and how often branches fire. Each law is the contract of a function that does nothing.

ghost use Rattle.std.specs.Prelude.{◌≡◌, ◌≤◌, ◌+◌, ℕ, List, Some, true};
ghost use Rattle.ccr_base.specs.declared.names.MsgId.{MsgId};
ghost use Rattle.ccr_base.specs.declared.messages.Msg.{Msg};
ghost use Rattle.ccr_base.specs.declared.policies.Group.TheVariants as groups;
ghost use Rattle.ccr_wiring.specs.declared.parts.Kind.TheVariants as kinds;
ghost use Rattle.ccr_wiring.specs.Wirings.{Placement, placement};
ghost use Rattle.ccr_model.specs.declared.history.Event.{Event};
ghost use Rattle.ccr_model.specs.declared.history.Event.TheVariants.{Post};
ghost use Rattle.ccr_base.specs.Names.{has_message};
ghost use Rattle.ccr_model.specs.Firings.{fired};
ghost use Rattle.ccr_model.specs.Counts.{totals};
ghost use Rattle.ccr_model.specs.Consequences.{are_distinct_tasks};
ghost use Rattle.ccr_model.specs.Laws.{times_taken};
ghost use Rattle.ccr_laws.specs.Lawful.{OfArbiters, OfFirings, OfLegal, OfValid};
ghost use Rattle.ccr_laws.specs.Occurring.{Occurs};
ghost use Rattle.ccr_laws.specs.WholePattern.{TakesWhole};
ghost use Rattle.ccr_laws.specs.OneFate.{IsHeld, HasOneFate};
ghost use Rattle.ccr_laws.specs.Times.{times_fired, times_any_fired, times_torn_down};

/// Each firing takes its whole pattern from what its ports held before it, and nothing else: of each slot the count, of a gather
/// the total, at a site the one oldest message of the awaited port.
pub fn firings_take_whole_patterns()
    ensures { OfValid (λ wiring history. OfFirings history (λ past spot messages. TakesWhole wiring past spot messages)) }
{}

/// A choice, a `once` receiver, and the teardown branches of a domain of Interleaves all together, fire at most once.
pub fn single_firings_come_once()
    ensures choice { OfValid (λ wiring history. OfArbiters wiring (λ number its. its.kind ≡ kinds.Choice → times_any_fired wiring history number ≤ 1)) }
    ensures once { OfLegal (λ wiring history. (branch : ℕ) (s : Placement) → placement wiring branch ≡ Some s → s.branch.group ≡ groups.Once → times_fired history branch ≤ 1) }
    ensures teardown { OfLegal (λ wiring history. (domain : ℕ) → times_torn_down wiring history domain ≤ 1) }
{}

/// Each posted message has exactly one fate, the one that `fate` tells. A name is taken at most once: at most one firing names
/// it, and once. What a firing names was posted and held before it.
pub fn messages_have_one_fate()
    ensures fate { OfValid (λ wiring history. (past : List Event) (message : Msg) → Occurs history past (Post message) → HasOneFate wiring history message.id) }
    ensures once { OfValid (λ wiring history. (name : MsgId) → times_taken history name ≤ 1) }
    ensures held_before { OfValid (λ wiring history. OfFirings history (λ past spot messages. (name : MsgId) → has_message messages name ≡ true → IsHeld past name)) }
{}

/// In all, as many messages were posted as are held and were taken.
pub fn messages_are_held_or_taken()
    ensures { OfValid (λ wiring history. (totals history).posted ≡ (totals history).held + (totals history).taken) }
{}

/// No two firings have one task name.
pub fn tasks_fire_once()
    ensures { OfLegal (λ wiring history. are_distinct_tasks (fired history) ≡ true) }
{}
