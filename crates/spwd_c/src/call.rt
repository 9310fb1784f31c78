// Clear and load, as C calls them.
ghost use Rattle.box_calls.specs.Calls.{ClearLeaves, left_in};
ghost use Rattle.spwd_c.specs.Exports.{Loads};

use box_calls::clear::clear;
use box_calls::load::load;
use c_numbers::verdict::numbers_of;
use memory_plan::layout::*;
use memory_run::layout::*;
use rules_box::Watchdog;

// The box of a clear, whatever memory held before.
#[unsafe(no_mangle)]
pub extern "C" fn spwd_c_clear(
    sets: &mut Sets,
    ends: &mut Ends,
    rows: &mut Rows,
    reach: &mut Reach,
    paths: &mut Paths,
    spans: &mut Spans,
    aims: &mut Aims,
    numbers: &mut Numbers,
    run: &mut Run,
    last: &mut Last,
    watchdog: &mut Watchdog,
)
    ensures { ClearLeaves (left_in sets ends rows reach paths spans aims numbers run last) watchdog.new }
{
    clear(
        sets, ends, rows, reach, paths, spans, aims, numbers, run, last, watchdog,
    );
}

// The verdict on a file: the box holds its plan, or is that of a clear.
#[unsafe(no_mangle)]
pub extern "C" fn spwd_c_load(
    file: &[u8],
    sets: &mut Sets,
    ends: &mut Ends,
    rows: &mut Rows,
    reach: &mut Reach,
    paths: &mut Paths,
    spans: &mut Spans,
    aims: &mut Aims,
    numbers: &mut Numbers,
    run: &mut Run,
    last: &mut Last,
    watchdog: &mut Watchdog,
    verdict: &mut [u32; 5],
)
    ensures { Loads file.now (left_in sets ends rows reach paths spans aims numbers run last) watchdog.new verdict.new }
{
    let judged = load(
        file, sets, ends, rows, reach, paths, spans, aims, numbers, run, last, watchdog,
    );
    *verdict = numbers_of(judged);
}
