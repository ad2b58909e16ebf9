//! The meter answers.

ghost use Rattle.std.specs.Prelude.{◌≡◌};
ghost use Rattle.ccr_object.specs.Meters.{answer, after};

use ccr_claim::{Ask, Reply};
use ccr_places::Note;
use ccr_queue::Meter;

pub(super) fn act(meter: &mut Meter, ask: Ask) -> Option<(Reply, Note)>
    ensures answer { result ≡ answer meter.old ask }
    ensures state { meter.new ≡ after meter.old ask }
{
    match ask {
        Ask::Draw => {
            let drawn = meter.draw();
            let reply = match drawn {
                Some(before) => Reply::Drawn(before),
                None => Reply::Spent,
            };
            Some((reply, Note::Draw(drawn)))
        }
        Ask::Leave => {
            if !meter.may_leave() {
                return None;
            }
            meter.leave();
            Some((Reply::Done, Note::Leave))
        }
        Ask::Left => {
            let left = meter.left();
            Some((Reply::Left(left), Note::Left(left)))
        }
        _ => None,
    }
}
