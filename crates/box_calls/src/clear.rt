// "Clear. The state is then the one before any load, every number of it."
ghost use Rattle.box_calls.specs.Calls.{ClearLeaves, left_in};

use crate::cleared::clear_run;
use memory_plan::layout::*;
use memory_run::layout::*;
use rules_box::Watchdog;

// The box of a clear, whatever memory and the five numbers held before.
pub fn clear(
    sets: &mut Sets,
    ends: &mut Ends,
    rows: &mut Rows,
    reach: &mut Reach,
    paths: &mut Paths,
    spans: &mut Spans,
    aims: &mut Aims,
    numbers: &mut Numbers,
    run: &mut Run,
    last: &mut Last,
    watchdog: &mut Watchdog,
)
    ensures { ClearLeaves (left_in sets ends rows reach paths spans aims numbers run last) watchdog.new }
{
    load_plan::load::clear(sets, ends, rows, reach, paths, spans, aims, numbers);
    clear_run(run, last);
    *watchdog = Watchdog::default();
}
