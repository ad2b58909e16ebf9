//! What is told of a wiring.

use ccr_base::List;
use ccr_model::Totals;

/// What every run of a wiring agrees on.
#[derive(Drop)]
pub enum Agreed {
    /// It is unsteady, by this rule, the first of the five that holds.
    Unsteady(u8),
    /// It is steady, and every quiet run spends the budget.
    Spent,
    /// It is steady, and every quiet run fires each branch so often and has these totals.
    Counts { fired: List<u32>, totals: Totals },
}
