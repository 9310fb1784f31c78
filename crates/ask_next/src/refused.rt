// Why a transaction is refused, where the row of its initiator or its turns were looked for and are not there.
ghost use Rattle.std.specs.Prelude.{◌≡◌, ℕ, ◌<◌, IfOk, IfErr};
ghost use Rattle.std.proofs.Math.Option.{Option};
ghost use Rattle.rules_plan.specs.Numbers.{refusal_number};
ghost use Rattle.rules_plan.specs.Plan.{Plan};
ghost use Rattle.memory_plan.specs.View.{Timed};
ghost use Rattle.memory_plan.specs.laws.Found.{Rowed};
ghost use Rattle.ask_next.specs.Refused.{no_row, no_turn};

use memory_plan::interval::is_loaded;
use memory_plan::layout::*;
use memory_plan::rows::first_row;
use rules_plan::Refusal;

// 20 "no plan", 22 "not an initiator of the plan". Without a plan there are no rows: only where none is found is 20 told from 22.
pub fn no_row(numbers: &Numbers) -> Refusal
    ensures { (o : Option Plan) → Timed o numbers.now → refusal_number result ≡ no_row o }
{
    if is_loaded(numbers) {
        Refusal::NoInitiator
    } else {
        Refusal::NoPlan
    }
}

// The row of an initiator; 20 or 22 where it has none. A branch is foretold, where all that follows would wait for a row that is worked out.
pub fn own_row(rows: &Rows, numbers: &Numbers, initiator: u8) -> Result<usize, Refusal>
    ensures low { IfOk result (λ row. row < 8) }
    ensures own { IfOk result (λ row. Rowed rows.now numbers.now initiator row) }
    ensures none { IfErr result (λ refusal. Rowed rows.now numbers.now initiator 8) }
    ensures refusal { IfErr result (λ refusal. (o : Option Plan) → Timed o numbers.now → refusal_number refusal ≡ no_row o) }
{
    match first_row(rows, initiator) {
        Some(row) if row < numbers[INITIATORS] as usize => Ok(row),
        _ => Err(no_row(numbers)),
    }
}

// 24 "length over 4,096", 25 "no entry of this initiator permits the target …". What an entry permits is never longer: only where none does
// is 24 told from 25.
pub fn no_turn(length: u16) -> Refusal
    ensures { refusal_number result ≡ no_turn length }
{
    if 4096 < length {
        Refusal::LengthOverMost
    } else {
        Refusal::NotPermitted
    }
}
