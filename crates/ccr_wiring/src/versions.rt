//! What a wiring of version 1 hasn't: values of several numbers, parts of values, and open posters and handlers.

ghost use Rattle.std.specs.Prelude.{◌≡◌};
ghost use Rattle.std.specs.List.{list_any};
ghost use Rattle.ccr_wiring.specs.Openness.{is_closed};
ghost use Rattle.ccr_wiring.specs.Versions.{has_strange_version, is_long, expr_is_newer, action_is_newer, handler_is_newer, poster_is_newer, is_newer, has_newer};

use crate::{HandlerPart, Parts, PosterPart};
use ccr_base::{Action, Expr, Value};

pub(crate) fn has_strange_version(parts: &Parts) -> bool
    ensures { result ≡ has_strange_version parts.now }
{
    parts.version != 1 && parts.version != 2
}

fn is_long(value: &Value) -> bool
    ensures { result ≡ is_long value.now }
{
    value.numbers().len() > 1
}

fn expr_is_newer(expr: &Expr) -> bool
    ensures { result ≡ expr_is_newer expr.now }
{
    match expr {
        Expr::Number(value) => is_long(value),
        Expr::Part(_, _) => true,
        Expr::Arg(_) | Expr::Sum | Expr::Count => false,
    }
}

fn action_is_newer(action: &Action) -> bool
    ensures { result ≡ action_is_newer action.now }
{
    match action {
        Action::Post(_, expr) | Action::Fail(expr) => expr_is_newer(expr),
        Action::Add(_) | Action::Remove(_) | Action::Await(_) => false,
    }
}

fn handler_is_newer(part: &HandlerPart) -> bool
    ensures { result ≡ handler_is_newer part.now }
{
    let actions = part.handler.actions.as_slice();
    actions.iter().any(|action| action_is_newer(action))
}

fn poster_is_newer(poster: &PosterPart) -> bool
    ensures { result ≡ poster_is_newer poster.now }
{
    let posts = poster.posts.as_slice();
    posts.iter().any(|post| is_long(&post.value()))
}

fn has_newer_handler(handlers: &[HandlerPart]) -> bool
    ensures { result ≡ list_any handler_is_newer handlers.now }
{
    handlers.iter().any(|part| handler_is_newer(part))
}

fn has_newer_poster(posters: &[PosterPart]) -> bool
    ensures { result ≡ list_any poster_is_newer posters.now }
{
    posters.iter().any(|poster| poster_is_newer(poster))
}

/// Whether no poster and no handler is open.
pub fn is_closed(parts: &Parts) -> bool
    ensures { result ≡ is_closed parts.now }
{
    parts.open_posters.as_slice().is_empty() && parts.open_handlers.as_slice().is_empty()
}

fn is_newer(parts: &Parts) -> bool
    ensures { result ≡ is_newer parts.now }
{
    has_newer_handler(parts.handlers.as_slice())
        || has_newer_poster(parts.posters.as_slice())
        || !is_closed(parts)
}

pub(crate) fn has_newer(parts: &Parts) -> bool
    ensures { result ≡ has_newer parts.now }
{
    parts.version == 1 && is_newer(parts)
}
