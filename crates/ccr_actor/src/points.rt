//! When the gate is asked.

ghost use Rattle.std.specs.Prelude.{◌≡◌};
ghost use Rattle.ccr_actor.specs.Points.{point_before, point_after};

use ccr_base::{How, Point};
use ccr_claim::{Ask, Reply};

/// The point before this ask.
pub fn point_before(ask: &Ask) -> Option<Point>
    ensures { result ≡ point_before ask.now }
{
    match ask {
        Ask::Over { how, .. } => match how {
            How::Dropped => None,
            _ => Some(Point::BeforeEnd),
        },
        Ask::Suspend(_) => Some(Point::BeforeEnd),
        _ => None,
    }
}

/// The point after this reply.
pub fn point_after(reply: &Reply) -> Option<Point>
    ensures { result ≡ point_after reply.now }
{
    match reply {
        Reply::Got(_) => Some(Point::Claimed),
        Reply::Fired { .. } => Some(Point::Committed),
        Reply::Taken(Some(_)) => Some(Point::Started),
        _ => None,
    }
}
