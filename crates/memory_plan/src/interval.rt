// Whether there is a plan, and its intervals.
ghost use Rattle.std.specs.Prelude.{◌≡◌, ◌≢◌, true, false, ℕ};
ghost use Rattle.std.proofs.Math.Option.{Option};
ghost use Rattle.lists.specs.Search.{is_some};
ghost use Rattle.rules_plan.specs.Plan.{Plan};
ghost use Rattle.rules_plan.specs.Meaning.{least_of, greatest_of};
ghost use Rattle.memory_plan.specs.Memory.{numbers_with, greatest_in};
ghost use Rattle.memory_plan.specs.View.{Timed};

use crate::layout::*;

// An accepted plan's greatest interval is 1 at least.
pub fn is_loaded(numbers: &Numbers) -> bool
    ensures value { (o : Option Plan) → Timed o numbers.now → result ≡ is_some o }
    ensures numbers_value { (result ≡ false → greatest_in numbers.now ≡ 0) × (result ≡ true → greatest_in numbers.now ≢ 0) }
{
    numbers[GREATEST] != 0
}

// The least interval between time-codes, 0 where there is no plan.
pub fn least_interval(numbers: &Numbers) -> u32
    ensures { (size : ℕ) (p : Plan) → numbers.now ≡ numbers_with size p → result ≡ least_of p.timings }
{
    numbers[LEAST]
}

// The greatest interval between time-codes, 0 where there is no plan.
pub fn greatest_interval(numbers: &Numbers) -> u32
    ensures { (size : ℕ) (p : Plan) → numbers.now ≡ numbers_with size p → result ≡ greatest_of p.timings }
{
    numbers[GREATEST]
}
