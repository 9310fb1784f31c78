// Whether the box is blank, for the lamp on the jig: every number is read, and none is taken on trust.
#![tactic(auto)]

ghost use Rattle.std.specs.Prelude.{◌≡◌, ◌↔◌, true, replicate};
ghost use Rattle.rules_plan.specs.Plan.{blank};
ghost use Rattle.memory_plan.specs.Memory as plan;
ghost use Rattle.rules_box.specs.State.{cleared, watchdog_cleared};
ghost use Rattle.box_calls.specs.Box.{Holds};
ghost use Rattle.memory_plan.specs.Lent.{at_now};
ghost use Rattle.box_calls.specs.Calls.{At, shown_in};

use lists::equal::zero;
use memory_plan::layout::*;
use memory_run::layout::*;
use rules_box::Watchdog;

// Whether plan memory holds no plan.
fn plan_blank(
    sets: &Sets,
    ends: &Ends,
    rows: &Rows,
    reach: &Reach,
    paths: &Paths,
    spans: &Spans,
    aims: &Aims,
    numbers: &Numbers,
) -> bool
    ensures { (result ≡ true) ↔ at_now (plan.Holds blank) sets ends rows reach paths spans aims numbers }
{
    zero(sets)
        && zero(ends)
        && zero(rows)
        && zero(reach)
        && zero(paths)
        && zero(spans)
        && zero(aims)
        && zero(numbers)
}

// Whether run memory has nothing waiting or live, and no time-code.
fn run_blank(run: &Run, last: &Last) -> bool
    ensures { (result ≡ true) ↔ ((run.now ≡ replicate 96 0) × (last.now ≡ replicate 1 0)) }
{
    zero(run) && zero(last)
}

// True exactly where every number of memory and of the watchdog is that of a clear.
pub fn is_blank(
    sets: &Sets,
    ends: &Ends,
    rows: &Rows,
    reach: &Reach,
    paths: &Paths,
    spans: &Spans,
    aims: &Aims,
    numbers: &Numbers,
    run: &Run,
    last: &Last,
    watchdog: Watchdog,
) -> bool
    ensures { (result ≡ true) ↔ ((watchdog ≡ watchdog_cleared) × At (shown_in sets ends rows reach paths spans aims numbers run last) cleared) }
{
    plan_blank(sets, ends, rows, reach, paths, spans, aims, numbers)
        && run_blank(run, last)
        && watchdog == Watchdog::default()
}
