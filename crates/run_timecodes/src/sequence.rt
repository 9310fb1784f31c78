// Whether a time-code is taken, and whether it is in sequence.
ghost use Rattle.std.specs.Prelude.{◌≡◌, ℕ, ◌*◌, ◌≤◌, ◌<◌, OnOk};
ghost use Rattle.std.proofs.Math.Option.{Option};
ghost use Rattle.rules_box.specs.declared.Event.TheVariants.{TimeCode};
ghost use Rattle.rules_plan.specs.Numbers.{refusal_told};
ghost use Rattle.memory_plan.specs.View.{Timed};
ghost use Rattle.rules_box.specs.State.{Box};
ghost use Rattle.rules_box.specs.Refuse.{record_size, most_records, refusal};
ghost use Rattle.rules_box.specs.Turn.{in_sequence};
ghost use Rattle.memory_run.specs.Run.{last_of};

use memory_plan::interval::is_loaded;
use memory_plan::layout::*;
use rules_plan::Refusal;
use run_records::RECORD_ROOM;

// "The first after a load is in sequence; later ones are if v is one more than the last accepted value … modulo 64."
pub fn in_sequence(last: u8, byte: u8) -> bool
    ensures { (o : Option ℕ) → last ≡ last_of o → result ≡ in_sequence o byte }
{
    last == 0 || byte % 64 == last % 64
}

// Refusals 20, 21 and 29 of a time-code.
pub fn refuse(numbers: &Numbers, byte: u8, room: usize) -> Result<(), Refusal>
    ensures tells { (b : Box) → Timed b.plan numbers.now → (clock : ℕ) → refusal_told result ≡ refusal room b (TimeCode byte clock) }
    ensures taken { OnOk result ((most_records * record_size ≤ room) × (byte < 64)) }
{
    if !is_loaded(numbers) {
        return Err(Refusal::NoPlan);
    }
    if 64 <= byte {
        return Err(Refusal::UpperBits);
    }
    if room < RECORD_ROOM {
        return Err(Refusal::SmallBuffer);
    }
    Ok(())
}
