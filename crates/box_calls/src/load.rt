// "Load. … A refused load leaves the state of a clear … An accepted load replaces everything".
ghost use Rattle.box_calls.specs.Calls.{LoadLeaves, left_in};

use crate::cleared::clear_run;
use memory_plan::interval::{greatest_interval, least_interval};
use memory_plan::layout::*;
use memory_run::layout::*;
use rules_box::Watchdog;
use rules_plan::Verdict;

// The verdict on a file: 0, and the box holds its plan; or the first fault, and the box is that of a clear.
pub fn load(
    file: &[u8],
    sets: &mut Sets,
    ends: &mut Ends,
    rows: &mut Rows,
    reach: &mut Reach,
    paths: &mut Paths,
    spans: &mut Spans,
    aims: &mut Aims,
    numbers: &mut Numbers,
    run: &mut Run,
    last: &mut Last,
    watchdog: &mut Watchdog,
) -> Verdict
    ensures { LoadLeaves file.now result (left_in sets ends rows reach paths spans aims numbers run last) watchdog.new }
{
    let verdict = load_plan::load::load(file, sets, ends, rows, reach, paths, spans, aims, numbers);
    clear_run(run, last);
    *watchdog = Watchdog {
        least: least_interval(numbers),
        greatest: greatest_interval(numbers),
        ..Watchdog::default()
    };
    verdict
}
