//! Which notes show an event of the history.

ghost use Rattle.std.specs.Prelude.{◌≡◌};
ghost use Rattle.ccr_object.specs.Events.{has_event, is_event};

use crate::deed::Deed;
use ccr_base::How;
use ccr_places::Note;

/// Whether the entry shows an event.
#[inline(always)]
pub(crate) fn has_event(deed: &Deed) -> bool
    ensures { result ≡ has_event deed.now }
{
    match &deed.note {
        Some(note) => is_event(note),
        None => false,
    }
}

/// Claims, bookings, the meter's notes and what was answered with nothing show none.
#[inline(always)]
fn is_event(note: &Note) -> bool
    ensures { result ≡ is_event note.now }
{
    match note {
        Note::Over {
            how: How::Dropped,
            ..
        } => false,
        Note::Post(_)
        | Note::Fired { .. }
        | Note::Admit(Some(_))
        | Note::Over { .. }
        | Note::Suspend(_)
        | Note::Put { .. }
        | Note::Take(Some(_)) => true,
        _ => false,
    }
}
