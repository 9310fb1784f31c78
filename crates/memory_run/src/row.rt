// One initiator's row of run memory, twelve words: its next number, how many wait, eight places of the line, its live transaction.
// Each contract holds for every side that the row is of.
ghost use Rattle.std.specs.Prelude.{◌≡◌, length, get_or};
ghost use Rattle.lists.specs.Search.{is_some};
ghost use Rattle.memory_plan.specs.View.{Owner};
ghost use Rattle.rules_box.specs.State.{Side};
ghost use Rattle.rules_box.specs.Turn.{finish};
ghost use Rattle.rules_box.specs.laws.Fit.{FitSide};
ghost use Rattle.memory_run.specs.Run.{row_of, live_word};
ghost use Rattle.memory_run.specs.Row.{IsRow, live_request};

use crate::layout::*;
use crate::word::{length_in, number_in, target_in};

pub fn waiting(row: &[u64]) -> u64
    requires { IsRow row.now }
    ensures { (result ≡ get_or row.now 1 0) × ((o : Owner) (s : Side) → FitSide s → row.now ≡ row_of o s → result ≡ length s.line) }
{
    row[WAITING]
}

pub fn has_live(row: &[u64]) -> bool
    requires { IsRow row.now }
    ensures { (o : Owner) (s : Side) → FitSide s → row.now ≡ row_of o s → result ≡ is_some s.live }
{
    row[TIME] != 0
}

// The request of the live transaction as its word, 0 where there is none.
pub fn live_word(row: &[u64]) -> u64
    requires { IsRow row.now }
    ensures { (o : Owner) (s : Side) → FitSide s → row.now ≡ row_of o s → result ≡ live_word o s.live }
{
    row[LIVE]
}

pub fn live_number(row: &[u64]) -> u16
    requires { IsRow row.now }
    ensures { (o : Owner) (s : Side) → FitSide s → row.now ≡ row_of o s → result ≡ (live_request s.live).number }
{
    number_in(row[LIVE])
}

pub fn live_target(row: &[u64]) -> u8
    requires { IsRow row.now }
    ensures { (o : Owner) (s : Side) → FitSide s → row.now ≡ row_of o s → result ≡ (live_request s.live).target }
{
    target_in(row[LIVE])
}

pub fn live_length(row: &[u64]) -> u16
    requires { IsRow row.now }
    ensures { (o : Owner) (s : Side) → FitSide s → row.now ≡ row_of o s → result ≡ (live_request s.live).length }
{
    length_in(row[LIVE])
}

// "Ends the live transaction"
pub fn finish_row(row: &mut [u64])
    requires { IsRow row.old }
    ensures { (o : Owner) (s : Side) → FitSide s → row.old ≡ row_of o s → row.new ≡ row_of o (finish s) }
{
    row[LIVE] = 0;
    row[TIME] = 0;
}
