// Clearing plan memory, and loading a file into it.
ghost use Rattle.std.specs.Prelude.{◌≡◌};
ghost use Rattle.rules_plan.specs.Plan.{blank};
ghost use Rattle.rules_plan.specs.Verdict.{number};
ghost use Rattle.rules_plan.specs.Judge.{judge};
ghost use Rattle.memory_plan.specs.Memory.{Holds};
ghost use Rattle.load_plan.specs.Load.{plan_left};
ghost use Rattle.memory_plan.specs.Lent.{at_exit};

use load_judge::judge::judge_into;
use memory_plan::layout::*;
use rules_plan::Verdict;

// Memory that holds no plan, whatever it held before.
pub fn clear(
    sets: &mut Sets,
    ends: &mut Ends,
    rows: &mut Rows,
    reach: &mut Reach,
    paths: &mut Paths,
    spans: &mut Spans,
    aims: &mut Aims,
    numbers: &mut Numbers,
)
    ensures { at_exit (Holds blank) sets ends rows reach paths spans aims numbers }
{
    *sets = [0u64; SETS];
    *ends = [0u8; ENDS];
    *rows = [0u8; ROWS];
    *reach = [0u64; ROWS];
    *paths = [0u8; PATH_BYTES];
    *spans = [0u8; CELLS];
    *aims = [0u64; AIMS];
    *numbers = [0u32; NUMBERS];
}

// The number of a verdict.
// Kept: the new form, a test for Accepted alone, is no plainer: that no fault has the number 0 would have to be shown of the whole judgement.
fn number_of(verdict: Verdict) -> u8
    ensures { result ≡ number verdict }
{
    match verdict {
        Verdict::Accepted { .. } => 0,
        Verdict::Faulty { number, .. } => number,
        Verdict::Overrun { .. } => 13,
        Verdict::Clash { .. } => 14,
    }
}

// Loads a file: the verdict on it. Memory holds the file's plan where the verdict is 0, and no plan otherwise, whatever it held before.
pub fn load(
    file: &[u8],
    sets: &mut Sets,
    ends: &mut Ends,
    rows: &mut Rows,
    reach: &mut Reach,
    paths: &mut Paths,
    spans: &mut Spans,
    aims: &mut Aims,
    numbers: &mut Numbers,
) -> Verdict
    ensures { (result ≡ judge file.now) × at_exit (Holds (plan_left file.now)) sets ends rows reach paths spans aims numbers }
{
    clear(sets, ends, rows, reach, paths, spans, aims, numbers);
    let verdict = judge_into(file, sets, ends, rows, reach, paths, spans, aims, numbers);
    if number_of(verdict) != 0 {
        clear(sets, ends, rows, reach, paths, spans, aims, numbers);
    }
    verdict
}
