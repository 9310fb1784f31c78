// The times that a plan carries: judged, and kept with the fixed time of every path by the rate, so that no event divides.
#![tactic(auto)]

ghost use Rattle.std.specs.Prelude.{◌≡◌, List, [], ℕ, ◌+◌, ◌<◌, length};
ghost use Rattle.rules_plan.specs.Numbers.{fault_told};
ghost use Rattle.rules_plan.specs.Plan.{Plan};
ghost use Rattle.rules_plan.specs.laws.Fair.{Fair};
ghost use Rattle.memory_plan.specs.Memory.{rows_of, paths_of, numbers_with};
ghost use Rattle.memory_plan.specs.Take.{item_fault, taken, times_item};
ghost use Rattle.load_times.specs.Filling.{Filling};

use memory_plan::at_most;
use memory_plan::layout::*;
use memory_plan::rows::row_among;
use rules_plan::Fault;
use time_sheet::{Latencies, MOST_TIME, Pace, routers_over};

// Stores the fixed time by the rate of path number k, in the cell of its row and target. (Every path of a plan has both.)
fn put_cost(rows: &Rows, paths: &Paths, numbers: &mut Numbers, k: usize, pace: Pace)
    requires { k < 128 }
    ensures { (p : Plan) (front : List ℕ) → Fair p → rows.now ≡ rows_of p → paths.now ≡ paths_of p → k < length p.paths →
        Filling p pace front k numbers.old → Filling p pace front (k + 1) numbers.new }
{
    let at = k * PATH;
    let row = row_among(rows, numbers[INITIATORS], paths[at]);
    let target = paths[at + PATH_TARGET];
    if ROWS <= row || 64 <= target {
        return;
    }
    let routers = routers_over(paths[at + PATH_COUNT]);
    numbers[COSTS + row * SLOTS + target as usize] = pace.cost(routers, routers);
}

// The same of every path.
fn put_costs(rows: &Rows, paths: &Paths, numbers: &mut Numbers, pace: Pace)
    ensures { (p : Plan) (front : List ℕ) → Fair p → rows.now ≡ rows_of p → paths.now ≡ paths_of p →
        Filling p pace front 0 numbers.old → Filling p pace front (length p.paths) numbers.new }
{
    for k in 0..at_most(numbers[PATHS], MOST_PATHS) {
        put_cost(rows, paths, numbers, k, pace);
    }
}

// The verdict on the times; without one the numbers have them. (Second ones are refused before, with 4.)
pub fn times(
    rows: &Rows,
    paths: &Paths,
    numbers: &mut Numbers,
    rate: u16,
    given: Latencies,
    slot: u32,
) -> Result<(), Fault>
    ensures { (size : ℕ) (p : Plan) → Fair p → rows.now ≡ rows_of p → paths.now ≡ paths_of p → numbers.old ≡ numbers_with size p →
        p.times ≡ [] → p.replies ≡ [] →
        (fault_told result ≡ item_fault p (times_item rate given.a given.d given.f given.g slot))
        × (numbers.new ≡ numbers_with size (taken p (times_item rate given.a given.d given.f given.g slot))) }
{
    let rate = rate as u32;
    let Some(pace) = Pace::new(rate, given) else {
        return Err(Fault::OutOfRange);
    };
    if MOST_TIME < slot {
        return Err(Fault::OutOfRange);
    }
    numbers[RATE] = rate;
    numbers[LATENCY_A] = given.a;
    numbers[LATENCY_D] = given.d;
    numbers[LATENCY_F] = given.f;
    numbers[LATENCY_G] = given.g;
    numbers[SLOT] = rate * slot;
    put_costs(rows, paths, numbers, pace);
    Ok(())
}
