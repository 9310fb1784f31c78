// An answer as document 01's number and values.
ghost use Rattle.std.specs.Prelude.{◌≡◌};
ghost use Rattle.rules_box.specs.Answer.{answer_told, values};
ghost use Rattle.run_events.specs.Values.{listed};

use rules_box::{Answer, Done};

// Number, record count, transaction number, target, length, status, class, reading: "all else 0".
#[tactic(auto, unfolding(rules_box::specs::Answer::values, crate::specs::Values::listed))]
pub fn values_of(answer: Answer) -> [u32; 8]
    ensures { result ≡ listed (values (answer_told answer)) }
{
    match answer {
        Err(refusal) => [u8::from(refusal) as u32, 0, 0, 0, 0, 0, 0, 0],
        Ok(Done::Recorded { count }) => [0, count as u32, 0, 0, 0, 0, 0, 0],
        Ok(Done::Joined { number }) => [0, 0, number as u32, 0, 0, 0, 0, 0],
        Ok(Done::Ended(ending)) => [
            0,
            0,
            0,
            ending.target as u32,
            ending.length as u32,
            ending.status as u32,
            u8::from(ending.class) as u32,
            0,
        ],
        Ok(Done::Told { late }) => [0, 0, 0, 0, 0, 0, 0, late as u32],
    }
}
