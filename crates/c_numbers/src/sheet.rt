// The sheet of a transaction as seven numbers.
ghost use Rattle.std.specs.Prelude.{◌≡◌};
ghost use Rattle.rules_plan.specs.Sheet.{sheet_told, sheet_numbers};

use rules_plan::{Fault, Terms};

// 0 or the refusal, the sum, then the terms (b), (c), (e), (h) and (i); all 0 behind a refusal.
pub fn sheet_numbers(sheet: Result<Terms, Fault>) -> [u32; 7]
    ensures { result ≡ sheet_numbers (sheet_told sheet) }
{
    match sheet {
        Ok(Terms { sum, b, c, e, h, i }) => [0, sum, b, c, e, h, i],
        Err(fault) => [u8::from(fault) as u32, 0, 0, 0, 0, 0, 0],
    }
}
