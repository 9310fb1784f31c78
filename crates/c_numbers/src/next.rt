// The answer to the question for the next turn as two numbers.
ghost use Rattle.std.specs.Prelude.{◌≡◌};
ghost use Rattle.rules_plan.specs.Next.{next_numbers, next_told};

use crate::told::told_numbers;
use rules_plan::Refusal;

// 0 and the count, or the refusal and 0.
pub fn next_numbers(next: Result<u8, Refusal>) -> [u32; 2]
    ensures { result ≡ next_numbers (next_told next) }
{
    told_numbers(next.map(u32::from))
}
