// A reply of an initiator: refusals 27 and 28, or the end of the live transaction with the class of its status.
ghost use Rattle.std.specs.Prelude.{◌≡◌};
ghost use Rattle.memory_plan.specs.View.{Owner};
ghost use Rattle.rules_box.specs.Answer.{class_number, ended_told};
ghost use Rattle.rules_box.specs.State.{Side};
ghost use Rattle.rules_box.specs.Turn.{class};
ghost use Rattle.rules_box.specs.laws.Fit.{FitSide};
ghost use Rattle.memory_run.specs.Run.{row_of};
ghost use Rattle.memory_run.specs.Row.{IsRow};
ghost use Rattle.run_requests.specs.Replied.{replied_answer, replied_side};

use memory_run::row::{finish_row, has_live, live_length, live_number, live_target};
use rules_box::{Class, Ending};
use rules_plan::Refusal;

// "0 success, 1 to 7 and 9 to 12 errors, 8 and 13 to 255 reserved"
pub fn class_of(status: u8) -> Class
    ensures { class_number result ≡ class status }
{
    match status {
        0 => Class::Success,
        1..=7 | 9..=12 => Class::Error,
        _ => Class::Reserved,
    }
}

// A reply of an initiator: refusal 27 or 28, or it ends the live transaction.
pub fn end_row(row: &mut [u64], number: u16, status: u8) -> Result<Ending, Refusal>
    requires { IsRow row.old }
    ensures { (o : Owner) (s : Side) → FitSide s → row.old ≡ row_of o s →
        (ended_told result ≡ replied_answer number status s) × (row.new ≡ row_of o (replied_side number s)) }
{
    if !has_live(row) {
        return Err(Refusal::NothingLive);
    }
    if live_number(row) != number {
        return Err(Refusal::OtherTransaction);
    }
    let target = live_target(row);
    let length = live_length(row);
    let class = class_of(status);
    finish_row(row);
    Ok(Ending {
        target,
        length,
        status,
        class,
    })
}
