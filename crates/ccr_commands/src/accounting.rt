//! What a run accounts for.

ghost use Rattle.std.specs.Prelude.{◌≡◌, List, true};
ghost use Rattle.ccr_wiring.specs.declared.parts.Parts.{Parts};
ghost use Rattle.ccr_wiring.specs.Valid.{IsValid};
ghost use Rattle.ccr_model.specs.declared.history.Event.{Event};
ghost use Rattle.ccr_model.specs.Legal.{IsLegal, is_complete};
ghost use Rattle.ccr_commands.specs.Accounts.{AccountsForAll};

use ccr_laws::{firings_take_whole_patterns, messages_have_one_fate, posters_follow_their_scripts};

/// A legal and complete history of a valid wiring accounts for each post and each message: the laws of such histories in one.
pub(crate) fn complete_histories_account_for_all()
    ensures { (wiring : Parts) (history : List Event) → IsValid wiring → IsLegal wiring history → is_complete wiring history ≡ true → AccountsForAll wiring history }
{
    posters_follow_their_scripts();
    messages_have_one_fate();
    firings_take_whole_patterns();
}
