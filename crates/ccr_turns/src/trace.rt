//! A list that only clauses read.

ghost use Rattle.std.specs.Prelude.{◌≡◌, List, ◌++◌, ◌∷◌, []};
ghost use base.Fml.{ftrue};

use std::marker::{Model, PhantomData};

/// What was told so far, as clauses see it. It has no bytes.
pub struct Trace<E> {
    marker: PhantomData<E>,
    pub ghost entries: { List E },
}

impl<E> Model for Trace<E> {
    ghost also_owns = { λ _. ftrue };
}

impl<E> Trace<E> {
    pub fn none() -> Trace<E>
        ensures { result.entries ≡ [] }
    {
        Trace {
            marker: PhantomData,
        }
    }

    /// The list with this at its end.
    pub fn more(&self, entry: &E) -> Trace<E>
        ensures { result.entries ≡ self.now.entries ++ entry.now ∷ [] }
    {
        let _ = entry;
        Trace {
            marker: PhantomData,
        }
    }
}

unsafe impl<E> Send for Trace<E> {}

impl<E> Drop for Trace<E> {
    fn drop(self) {
        let Self { marker: _ } = self;
    }
}
