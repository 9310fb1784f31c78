// The answer of writing out as two numbers.
ghost use Rattle.std.specs.Prelude.{◌≡◌};
ghost use Rattle.rules_plan.specs.Copy.{copied_told};
ghost use Rattle.c_numbers.specs.Numbers.{sized_numbers};

use crate::told::told_numbers;
use rules_plan::Refusal;

// Document 01's number of what writing out answers, and the size.
pub fn sized_numbers(copied: Result<u16, Refusal>) -> [u32; 2]
    ensures { result ≡ sized_numbers (copied_told copied) }
{
    told_numbers(copied.map(u32::from))
}
