//! The meter: one for a whole run, shared by all its actors.

ghost use Rattle.std.specs.Prelude.{◌≡◌, IsTrue};
ghost use Rattle.ccr_places.specs.Meters.{start, may_leave as can_leave, draw_note, after_draw, after_leave, after, IsGiven};
ghost use Rattle.ccr_places.specs.declared.notes.Note.TheVariants.{Draw, Leave, Left};

use std::marker::Model;

/// How many posters a wiring has at most.
const MOST_POSTERS: u32 = 16;

/// The budget of posts that tasks may make, of which one is drawn for each, and how many posters have left.
#[derive(Drop)]
pub struct Meter {
    budget: u32,
    drawn: u32,
    left: u32,
}

impl Model for Meter {
    ghost use Rattle.std.specs.Prelude.{◌≤◌};
    ghost use Rattle.ccr_base.specs.Bounds.{most_posters};
    ghost use Rattle.ccr_places.specs.Meters.{MeterState};

    ghost Value = { MeterState };

    ghost view = { λ meter. record { budget = meter.budget; drawn = meter.drawn; left = meter.left } };

    ghost invariant = { λ meter. (meter.drawn ≤ meter.budget) × (meter.left ≤ most_posters) };
}

impl Meter {
    /// A meter with its whole budget.
    pub fn new(budget: u32) -> Meter
        ensures { result ≡ start budget }
    {
        Meter {
            budget,
            drawn: 0,
            left: 0,
        }
    }

    /// Draws one post: how many were drawn before, or none where the budget is spent.
    pub fn draw(&mut self) -> Option<u32>
        ensures note { result ≡ draw_note self.old }
        ensures state { self.new ≡ after_draw self.old result }
        ensures given { IsGiven self.old (Draw result) }
        ensures step { self.new ≡ after self.old (Draw result) }
    {
        if self.drawn == self.budget {
            return None;
        }
        let before = self.drawn;
        self.drawn += 1;
        Some(before)
    }

    /// Whether fewer posters have left than a wiring may have.
    pub fn may_leave(&self) -> bool
        ensures { result ≡ can_leave self.now }
    {
        self.left < MOST_POSTERS
    }

    /// Counts one more poster that is through with its script.
    pub fn leave(&mut self)
        requires { IsTrue (can_leave self.old) }
        ensures state { self.new ≡ after_leave self.old }
        ensures given { IsGiven self.old Leave }
        ensures step { self.new ≡ after self.old Leave }
    {
        self.left += 1;
    }

    /// How many posters have left.
    pub fn left(&self) -> u32
        ensures reply { result ≡ self.now.left }
        ensures given { IsGiven self.now (Left result) }
    {
        self.left
    }
}
