// A request: "Joins its initiator's line and gets that initiator's next 16-bit transaction number". Refusals 20, 22, 24 and 25 are told in
// ask_next, 26 in asking.
ghost use Rattle.std.specs.Prelude.{List, ℕ};
ghost use Rattle.rules_box.specs.declared.Event.TheVariants.{Request};
ghost use Rattle.rules_box.specs.declared.Watchdog.{Watchdog};
ghost use Rattle.rules_box.specs.Answer.{joined_told};
ghost use Rattle.rules_box.specs.State.{Box};
ghost use Rattle.rules_box.specs.Step as rules;
ghost use Rattle.memory_run.specs.Row.{IsRun};
ghost use Rattle.memory_run.specs.Memory.{Finds, Answers};

use crate::asking::ask_row;
use ask_next::refused::{no_turn, own_row};
use bitsets::is_empty;
use memory_plan::entry::least_span;
use memory_plan::layout::*;
use memory_plan::turns::{aimed_at, lasting};
use memory_run::layout::*;
use rules_plan::Refusal;

pub fn request(
    rows: &Rows,
    aims: &Aims,
    numbers: &Numbers,
    run: &mut [u64],
    initiator: u8,
    target: u8,
    kind: u8,
    length: u16,
) -> Result<u16, Refusal>
    requires { IsRun run.old }
    ensures { (b : Box) (spans last : List ℕ) → Finds b rows.now spans aims.now numbers.now run.old last →
        (room : ℕ) (w : Watchdog) → Answers (rules.step room b w (Request initiator target kind length)) (joined_told result) run.new last }
{
    let row = own_row(rows, numbers, initiator)?;
    // Kept: the new form is no plainer: a kind is any byte of C and a bit of the word, and a type for it would only be made here and undone there.
    if 1 < kind {
        return Err(Refusal::UnknownKind);
    }
    // A target that no entry has is told before its least span is worked out.
    let aimed = aimed_at(aims, row, target);
    if is_empty(aimed) {
        return Err(no_turn(length));
    }
    let need = least_span(numbers, row, target, length);
    if is_empty(lasting(aims, row, aimed, need)) {
        return Err(no_turn(length));
    }
    ask_row(
        &mut run[row * ROW..row * ROW + ROW],
        initiator,
        target,
        kind,
        need,
        length,
    )
}
