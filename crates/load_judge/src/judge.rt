// The verdict on a file, which is read into memory that holds no plan.
ghost use Rattle.std.specs.Prelude.{◌≡◌};
ghost use Rattle.rules_plan.specs.Plan.{blank};
ghost use Rattle.rules_plan.specs.Verdict.{number};
ghost use Rattle.rules_plan.specs.Judge.{judge};
ghost use Rattle.rules_plan.specs.Canon.{given};
ghost use Rattle.memory_plan.specs.Memory.{Holds};
ghost use Rattle.memory_plan.specs.Lent.{at_exit};

use crate::whole::judge_whole;
use load_fields::read_fields;
use memory_plan::layout::*;
use rules_plan::{Fault, Verdict};

// Every verdict: memory, which holds no plan before, has the file's plan where the verdict is 0.
pub fn judge_into(
    file: &[u8],
    sets: &mut Sets,
    ends: &mut Ends,
    rows: &mut Rows,
    reach: &mut Reach,
    paths: &mut Paths,
    spans: &mut Spans,
    aims: &mut Aims,
    numbers: &mut Numbers,
) -> Verdict
    requires { Holds blank sets.old ends.old rows.old reach.old paths.old spans.old aims.old numbers.old }
    ensures { (result ≡ judge file.now) × (number result ≡ 0 → at_exit (Holds (given file.now)) sets ends rows reach paths spans aims numbers) }
{
    if 16384 < file.len() {
        return Verdict::Faulty {
            number: u8::from(Fault::FileTooLong),
            place: 0,
        };
    }
    if let Err(first) = read_fields(file, sets, ends, rows, reach, paths, spans, aims, numbers) {
        return Verdict::Faulty {
            number: u8::from(first.fault),
            place: first.at as u16,
        };
    }
    judge_whole(file, sets, rows, paths, spans, aims, numbers)
}
