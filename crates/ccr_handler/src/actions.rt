//! The actions of a segment.

ghost use Rattle.std.specs.Prelude.{◌≡◌};
ghost use Rattle.ccr_handler.specs.Playing.{is_await, after_await, actions_from};

use ccr_base::Action;

/// The actions from this segment on.
pub fn actions_from(actions: &[Action], segment: u32) -> &[Action]
    ensures { result.now ≡ actions_from segment actions.now }
{
    let mut rest = actions;
    for _ in 0..segment {
        rest = after_await(rest);
    }
    rest
}

/// What stands behind the first await.
fn after_await(actions: &[Action]) -> &[Action]
    ensures { result.now ≡ after_await actions.now }
{
    for (index, action) in actions.iter().enumerate() {
        if is_await(action) {
            return &actions[index + 1..];
        }
    }
    &[]
}

fn is_await(action: &Action) -> bool
    ensures { result ≡ is_await action.now }
{
    match action {
        Action::Await(_) => true,
        _ => false,
    }
}
