//! How a task that fired stands with its Interleave.

ghost use Rattle.std.specs.Prelude.{◌≡◌, ◌||◌, false, Some, if◌then◌else◌};
ghost use Rattle.std.specs.Option.{option_map_or};
ghost use Rattle.ccr_interleave.specs.Admissions.{is_shared, is_alone, admitted_as as admission_of};

/// It waits, was cut or is over; or it is an admitted root, of a concurrent branch or of another.
#[derive(Clone, Copy, PartialEq, Eq)]
pub(crate) enum Admission {
    Outside,
    Shared,
    Alone,
}

pub(crate) fn is_admitted(admission: Option<Admission>) -> bool
    ensures { result ≡ (option_map_or is_shared admission false || option_map_or is_alone admission false) }
{
    matches!(admission, Some(Admission::Shared | Admission::Alone))
}

/// The admission of an admitted root.
pub(crate) fn admitted_as(concurrent: bool) -> Admission
    ensures { result ≡ admission_of concurrent }
{
    if concurrent {
        Admission::Shared
    } else {
        Admission::Alone
    }
}

/// One for an admitted root of a concurrent branch, zero for any other.
pub(crate) fn shared_count(admission: Option<Admission>) -> usize
    ensures { result ≡ (if option_map_or is_shared admission false then 1 else 0) }
{
    match admission {
        Some(Admission::Shared) => 1,
        _ => 0,
    }
}

/// One for an admitted root of another branch than a concurrent one, zero for any other.
pub(crate) fn alone_count(admission: Option<Admission>) -> usize
    ensures { result ≡ (if option_map_or is_alone admission false then 1 else 0) }
{
    match admission {
        Some(Admission::Alone) => 1,
        _ => 0,
    }
}
