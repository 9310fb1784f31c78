// A request of an initiator that the plan permits: its place in the line, refusal 26.
ghost use Rattle.std.specs.Prelude.{◌≡◌};
ghost use Rattle.rules_plan.specs.Plan.{Plan};
ghost use Rattle.rules_plan.specs.Meaning.{least_span};
ghost use Rattle.memory_plan.specs.View.{owner};
ghost use Rattle.rules_box.specs.Answer.{joined_told};
ghost use Rattle.rules_box.specs.State.{Side};
ghost use Rattle.rules_box.specs.laws.Fit.{FitSide};
ghost use Rattle.memory_run.specs.Run.{row_of};
ghost use Rattle.memory_run.specs.Row.{IsRow};
ghost use Rattle.run_requests.specs.Asked.{asked_answer, asked_side};

use memory_run::layout::*;
use memory_run::row::waiting;
use rules_plan::Refusal;
use run_line::join_row;

// A request that the plan permits: refusal 26, or it joins the line.
pub fn ask_row(
    row: &mut [u64],
    initiator: u8,
    target: u8,
    kind: u8,
    need: u8,
    length: u16,
) -> Result<u16, Refusal>
    requires { IsRow row.old }
    ensures { (p : Plan) (s : Side) → FitSide s → need ≡ least_span p initiator target length → row.old ≡ row_of (owner p initiator) s →
        (joined_told result ≡ asked_answer s) × (row.new ≡ row_of (owner p initiator) (asked_side target kind length s)) }
{
    if PLACES as u64 <= waiting(row) {
        return Err(Refusal::LineFull);
    }
    Ok(join_row(row, initiator, target, kind, need, length))
}
