// What the lamp on the jig and the reread at the counter ask, as C calls it: 1 for yes, 0 for no.
ghost use Rattle.box_calls.specs.Calls.{shown_in};
ghost use Rattle.spwd_c.specs.Exports.{IsBlank, HoldsIt};
ghost use Rattle.memory_plan.specs.Lent.{at_exit, at_now};

use box_blank::is_blank;
use box_holds::holds;
use memory_plan::layout::*;
use memory_run::layout::*;
use rules_box::Watchdog;

// Whether every number of memory and of the five is that of a clear.
#[unsafe(no_mangle)]
pub extern "C" fn spwd_c_is_blank(
    sets: &Sets,
    ends: &Ends,
    rows: &Rows,
    reach: &Reach,
    paths: &Paths,
    spans: &Spans,
    aims: &Aims,
    numbers: &Numbers,
    run: &Run,
    last: &Last,
    watchdog: &Watchdog,
) -> u32
    ensures { IsBlank (shown_in sets ends rows reach paths spans aims numbers run last) watchdog.now result }
{
    let blank = is_blank(
        sets, ends, rows, reach, paths, spans, aims, numbers, run, last, *watchdog,
    );
    blank as u32
}

// Whether the file is accepted and the box holds its plan. The memory beside the box's has the file's plan afterwards.
#[unsafe(no_mangle)]
pub extern "C" fn spwd_c_holds(
    file: &[u8],
    sets: &Sets,
    ends: &Ends,
    rows: &Rows,
    reach: &Reach,
    paths: &Paths,
    spans: &Spans,
    aims: &Aims,
    numbers: &Numbers,
    other_sets: &mut Sets,
    other_ends: &mut Ends,
    other_rows: &mut Rows,
    other_reach: &mut Reach,
    other_paths: &mut Paths,
    other_spans: &mut Spans,
    other_aims: &mut Aims,
    other_numbers: &mut Numbers,
) -> u32
    ensures { at_exit (at_now (HoldsIt file.now result) sets ends rows reach paths spans aims numbers)
        other_sets other_ends other_rows other_reach other_paths other_spans other_aims other_numbers }
{
    let held = holds(
        file,
        sets,
        ends,
        rows,
        reach,
        paths,
        spans,
        aims,
        numbers,
        other_sets,
        other_ends,
        other_rows,
        other_reach,
        other_paths,
        other_spans,
        other_aims,
        other_numbers,
    );
    held as u32
}
