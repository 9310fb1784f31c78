// The rows of the initiators: the place of each among the initiators of the plan, which stand rising.
ghost use Rattle.std.specs.Prelude.{◌≡◌, ℕ, eqb};
ghost use Rattle.lists.specs.Numbers.{first_from};
ghost use Rattle.lists.specs.Options.{if_below};
ghost use Rattle.rules_plan.specs.Plan.{nth};
ghost use Rattle.memory_plan.specs.Rows.{row_among};

use crate::at_most;
use crate::layout::*;

// The first of all eight rows that has initiator i.
pub fn first_row(rows: &Rows, i: u8) -> Option<usize>
    ensures { result ≡ if_below 8 (first_from 8 0 (λ (k : ℕ). eqb i (nth rows.now k))) }
{
    rows.iter().position(|row| *row == i)
}

// The row of initiator i among the first count rows (8 at most); that count where it has none. (The count is looked at once, at the end.)
pub fn row_among(rows: &Rows, count: u32, i: u8) -> usize
    ensures { result ≡ row_among rows.now count i }
{
    let most = at_most(count, ROWS);
    first_row(rows, i).unwrap_or(most).min(most)
}
