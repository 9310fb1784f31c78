// Whether the box holds the plan of a file: the file is loaded into memory beside the box's, and the two are compared, every number.
#![tactic(auto)]

ghost use Rattle.std.specs.Prelude.{◌≡◌, ◌↔◌, true};
ghost use Rattle.memory_plan.specs.Memory.{Holds};
ghost use Rattle.load_plan.specs.Load.{plan_left, HoldsPlanOf};
ghost use Rattle.memory_plan.specs.Lent.{at_exit, at_now};

use memory_plan::interval::is_loaded;
use memory_plan::layout::*;

// Whether two plan memories are equal.
fn same_plan(
    sets: &Sets,
    ends: &Ends,
    rows: &Rows,
    reach: &Reach,
    paths: &Paths,
    spans: &Spans,
    aims: &Aims,
    numbers: &Numbers,
    other_sets: &Sets,
    other_ends: &Ends,
    other_rows: &Rows,
    other_reach: &Reach,
    other_paths: &Paths,
    other_spans: &Spans,
    other_aims: &Aims,
    other_numbers: &Numbers,
) -> bool
    ensures { (result ≡ true) ↔ ((sets.now ≡ other_sets.now) × (ends.now ≡ other_ends.now) × (rows.now ≡ other_rows.now)
        × (reach.now ≡ other_reach.now) × (paths.now ≡ other_paths.now) × (spans.now ≡ other_spans.now)
        × (aims.now ≡ other_aims.now) × (numbers.now ≡ other_numbers.now)) }
{
    sets == other_sets
        && ends == other_ends
        && rows == other_rows
        && reach == other_reach
        && paths == other_paths
        && spans == other_spans
        && aims == other_aims
        && numbers == other_numbers
}

// True exactly where the file is accepted and memory is that of its plan, every number of it, whatever memory is lent. The memory beside the
// box's has the file's plan afterwards.
pub fn holds(
    file: &[u8],
    sets: &Sets,
    ends: &Ends,
    rows: &Rows,
    reach: &Reach,
    paths: &Paths,
    spans: &Spans,
    aims: &Aims,
    numbers: &Numbers,
    other_sets: &mut Sets,
    other_ends: &mut Ends,
    other_rows: &mut Rows,
    other_reach: &mut Reach,
    other_paths: &mut Paths,
    other_spans: &mut Spans,
    other_aims: &mut Aims,
    other_numbers: &mut Numbers,
) -> bool
    ensures answer { (result ≡ true) ↔ at_now (HoldsPlanOf file.now) sets ends rows reach paths spans aims numbers }
    ensures left { at_exit (Holds (plan_left file.now)) other_sets other_ends other_rows other_reach other_paths other_spans other_aims other_numbers }
{
    load_plan::load::load(
        file,
        other_sets,
        other_ends,
        other_rows,
        other_reach,
        other_paths,
        other_spans,
        other_aims,
        other_numbers,
    );
    is_loaded(other_numbers)
        && same_plan(
            sets,
            ends,
            rows,
            reach,
            paths,
            spans,
            aims,
            numbers,
            other_sets,
            other_ends,
            other_rows,
            other_reach,
            other_paths,
            other_spans,
            other_aims,
            other_numbers,
        )
}
