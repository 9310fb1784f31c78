// The intervals of the time-codes: judged, and kept.
ghost use Rattle.std.specs.Prelude.{◌≡◌, [], ℕ};
ghost use Rattle.rules_plan.specs.Plan.{Plan};
ghost use Rattle.rules_plan.specs.Numbers.{fault_told};
ghost use Rattle.memory_plan.specs.Memory.{numbers_with};
ghost use Rattle.memory_plan.specs.Take.{item_fault, taken, timing_item};

use memory_plan::layout::*;
use rules_plan::Fault;

// Judges the intervals; without a fault the numbers have them. (A second pair is refused before, with 4.)
pub fn timing(numbers: &mut Numbers, least: u32, greatest: u32) -> Result<(), Fault>
    ensures { (size : ℕ) (p : Plan) → numbers.old ≡ numbers_with size p → p.timings ≡ [] →
        (fault_told result ≡ item_fault p (timing_item least greatest))
        × (numbers.new ≡ numbers_with size (taken p (timing_item least greatest))) }
{
    if greatest == 0 || 2147483647 < greatest || greatest < least {
        return Err(Fault::OutOfRange);
    }
    numbers[LEAST] = least;
    numbers[GREATEST] = greatest;
    Ok(())
}
