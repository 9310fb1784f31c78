// Verdicts 12, 15, 13 and 14, and 0, over a whole plan in memory.
ghost use Rattle.std.specs.Prelude.{◌≡◌, ℕ, ◌≤◌, length};
ghost use Rattle.rules_plan.specs.Plan.{Plan, nth};
ghost use Rattle.rules_plan.specs.Judge.{plan, read_file, counts, judge};
ghost use Rattle.rules_plan.specs.Canon.{given};
ghost use Rattle.rules_plan.specs.laws.Fair.{Fair};
ghost use Rattle.memory_plan.specs.Memory.{sets_of, rows_of, paths_of, spans_of, aims_of, numbers_with, numbers_of, paths_in};

use load_clashes::find_clash;
use load_overruns::find_overrun;
use memory_plan::layout::*;
use rules_plan::{Fault, Verdict};

// The counts of the plan that memory holds.
fn counted(sets: &Sets, numbers: &Numbers) -> Verdict
    requires { (paths_in numbers.now ≤ 128) × (nth numbers.now 4 ≤ 512) }
    ensures { (size : ℕ) (p : Plan) → Fair p → sets.now ≡ sets_of p → numbers.now ≡ numbers_with size p → result ≡ counts p }
{
    let devices = bitsets::size(bitsets::union(sets[NODES], sets[ROUTERS]));
    let links = bitsets::size(sets[LINKS]);
    let paths = numbers[PATHS];
    let entries = numbers[ENTRIES];
    Verdict::Accepted {
        devices: devices as u8,
        links: links as u8,
        paths: paths as u8,
        entries: entries as u16,
    }
}

// Verdicts 12, 15, 13 and 14, and 0: on a file that was read to its end, and whose plan memory holds.
pub fn judge_whole(
    file: &[u8],
    sets: &Sets,
    rows: &Rows,
    paths: &Paths,
    spans: &Spans,
    aims: &Aims,
    numbers: &Numbers,
) -> Verdict
    requires { (length file.now ≤ 16384) × (read_file file.now ≡ plan (given file.now))
        × (sets.now ≡ sets_of (given file.now)) × (rows.now ≡ rows_of (given file.now)) × (paths.now ≡ paths_of (given file.now))
        × (spans.now ≡ spans_of (given file.now)) × (aims.now ≡ aims_of (given file.now)) × (numbers.now ≡ numbers_of (given file.now)) }
    ensures { result ≡ judge file.now }
{
    if numbers[GREATEST] == 0 {
        return Verdict::Faulty {
            number: u8::from(Fault::NoIntervals),
            place: file.len() as u16,
        };
    }
    if numbers[ENTRIES] == 0 {
        return Verdict::Faulty {
            number: u8::from(Fault::NoEntry),
            place: file.len() as u16,
        };
    }
    if let Some(overrun) = find_overrun(rows, spans, numbers) {
        return overrun;
    }
    if let Some(clash) = find_clash(rows, paths, spans, aims, numbers) {
        return clash;
    }
    counted(sets, numbers)
}
