//! The spots that are driven.

ghost use Rattle.std.specs.Prelude.{◌≡◌, ◌==◌, ◌∷◌, [], drop, length, slice_get};

use ccr_base::Spot;
use std::marker::Model;

/// The spots that are driven, the first first: a site, if any, and then those that a table of the wiring lists.
#[derive(Drop)]
pub struct Driven<'w> {
    site: Option<Spot>,
    listed: &'w [Spot],
}

impl<'w> Model for Driven<'w> {
    ghost use Rattle.std.specs.Prelude.{List, ◌++◌, option_to_list};
    ghost use Rattle.ccr_base.specs.declared.names.Spot.{Spot as SpotOf};

    ghost Value = { List SpotOf };

    ghost view = { λ driven. option_to_list driven.site ++ driven.listed.now };
}

impl<'w> Driven<'w> {
    /// None.
    pub fn none() -> Driven<'w>
        ensures { result ≡ [] }
    {
        Driven {
            site: None,
            listed: &[],
        }
    }

    /// Those that are listed.
    pub fn of(spots: &'w [Spot]) -> Driven<'w>
        ensures { result ≡ spots.now }
    {
        Driven {
            site: None,
            listed: spots,
        }
    }

    /// One site.
    pub fn site(site: Spot) -> Driven<'w>
        ensures { result ≡ site ∷ [] }
    {
        Driven {
            site: Some(site),
            listed: &[],
        }
    }

    /// Whether there is none.
    pub fn is_empty(&self) -> bool
        ensures { result ≡ (length self.now == 0) }
    {
        self.site.is_none() && self.listed.is_empty()
    }

    /// The first.
    pub fn first(&self) -> Option<Spot>
        ensures { result ≡ slice_get self.now 0 }
    {
        match self.site {
            Some(site) => Some(site),
            None => self.listed.first().copied(),
        }
    }

    /// The first is done with.
    pub fn skip(&mut self)
        ensures { self.new ≡ drop 1 self.old }
    {
        if self.site.is_some() {
            self.site = None;
        } else if !self.listed.is_empty() {
            self.listed = &self.listed[1..];
        }
    }
}
