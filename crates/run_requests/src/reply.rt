// A reply: "Ends the live transaction and hands on the status byte and its class".
ghost use Rattle.std.specs.Prelude.{List, ℕ};
ghost use Rattle.rules_box.specs.declared.Event.TheVariants.{Reply};
ghost use Rattle.rules_box.specs.declared.Watchdog.{Watchdog};
ghost use Rattle.rules_box.specs.Answer.{ended_told};
ghost use Rattle.rules_box.specs.State.{Box};
ghost use Rattle.rules_box.specs.Step as rules;
ghost use Rattle.memory_run.specs.Row.{IsRun};
ghost use Rattle.memory_run.specs.Memory.{Finds, Answers};

use crate::ending::end_row;
use ask_next::refused::own_row;
use memory_plan::layout::*;
use memory_run::layout::*;
use rules_box::Ending;
use rules_plan::Refusal;

pub fn reply(
    rows: &Rows,
    numbers: &Numbers,
    run: &mut [u64],
    initiator: u8,
    number: u16,
    status: u8,
) -> Result<Ending, Refusal>
    requires { IsRun run.old }
    ensures { (b : Box) (spans aims last : List ℕ) → Finds b rows.now spans aims numbers.now run.old last →
        (room : ℕ) (w : Watchdog) → Answers (rules.step room b w (Reply initiator number status)) (ended_told result) run.new last }
{
    let row = own_row(rows, numbers, initiator)?;
    end_row(&mut run[row * ROW..row * ROW + ROW], number, status)
}
