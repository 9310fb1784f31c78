// A clock reading: "if a time-code was seen, elapsed > greatest, and it was not yet reported, it answers 1".
ghost use Rattle.std.specs.Prelude.{◌≡◌, ℕ};
ghost use Rattle.memory_plan.specs.View.{Timed};
ghost use Rattle.rules_box.specs.declared.Event.TheVariants.{Reading};
ghost use Rattle.rules_box.specs.Answer.{reading_told};
ghost use Rattle.rules_box.specs.State.{Box};
ghost use Rattle.rules_box.specs.Step as rules;

use memory_plan::interval::is_loaded;
use memory_plan::layout::*;
use rules_box::Watchdog;
use rules_plan::Refusal;
use run_watchdog::watch::{is_overdue, told_of};

// Whether the next time-code is late, which the watchdog then has as reported.
pub fn reading(numbers: &Numbers, w: &mut Watchdog, clock: u32) -> Result<bool, Refusal>
    ensures { (b : Box) → Timed b.plan numbers.now → (room : ℕ) →
        (reading_told result ≡ (rules.step room b w.old (Reading clock)).answer) × (w.new ≡ (rules.step room b w.old (Reading clock)).watchdog) }
{
    if !is_loaded(numbers) {
        return Err(Refusal::NoPlan);
    }
    let late = is_overdue(*w, clock);
    if late {
        *w = told_of(*w);
    }
    Ok(late)
}
