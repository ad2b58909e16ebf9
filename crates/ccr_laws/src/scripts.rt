//! What every legal history says of the posters. The law is the contract of a function that does nothing.

ghost use Rattle.std.specs.Prelude.{◌≡◌, true, map};
ghost use Rattle.ccr_model.specs.Legal.{is_complete};
ghost use Rattle.ccr_laws.specs.Lawful.{OfLegal, OfScripted};
ghost use Rattle.ccr_laws.specs.Scripts.{posts_by, sent_of, FollowsScript};

/// The posts of each poster that isn't open stand once and in order: they are the first lines of its script, and in a complete history all of them.
pub fn posters_follow_their_scripts()
    ensures follows { OfLegal (λ wiring history. OfScripted wiring (λ number poster. FollowsScript history number poster.posts)) }
    ensures whole { OfLegal (λ wiring history. is_complete wiring history ≡ true → OfScripted wiring (λ number poster. map sent_of (posts_by history number) ≡ poster.posts)) }
{}
