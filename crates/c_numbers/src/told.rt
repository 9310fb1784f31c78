// What is told, or a refusal, as two numbers.
ghost use Rattle.std.specs.Prelude.{◌≡◌};
ghost use Rattle.c_numbers.specs.Numbers.{told_numbers};

use rules_plan::Refusal;

// 0 and the number that is told, or document 01's number of the refusal and 0.
pub fn told_numbers(told: Result<u32, Refusal>) -> [u32; 2]
    ensures { result ≡ told_numbers told }
{
    match told {
        Ok(number) => [0, number],
        Err(refusal) => [u8::from(refusal) as u32, 0],
    }
}
