// One step: the event decides.
ghost use Rattle.rules_box.specs.Answer.{answer_told};
ghost use Rattle.memory_run.specs.Memory.{Steps};

use crate::reading::reading;
use memory_plan::layout::*;
use memory_run::layout::*;
use rules_box::{Answer, Done, Event, Watchdog};
use run_requests::reply::reply;
use run_requests::request::request;
use run_timecodes::time::time_code;

pub fn step(
    rows: &Rows,
    spans: &Spans,
    aims: &Aims,
    numbers: &Numbers,
    run: &mut Run,
    last: &mut Last,
    w: &mut Watchdog,
    event: Event,
    records: &mut [u8],
) -> Answer
    ensures { Steps rows.now spans.now aims.now numbers.now run.old last.old w.old records.old event
        (answer_told result) run.new last.new w.new records.new }
{
    match event {
        Event::TimeCode { byte, clock } => time_code(
            spans, aims, numbers, run, last, w, byte, clock, records,
        ).map(|count| Done::Recorded { count }),
        Event::Request {
            initiator,
            target,
            kind,
            length,
        } => request(rows, aims, numbers, run, initiator, target, kind, length).map(
            |number| Done::Joined { number },
        ),
        Event::Reply {
            initiator,
            number,
            status,
        } => reply(rows, numbers, run, initiator, number, status).map(|ending| Done::Ended(ending)),
        Event::Reading { clock } => reading(numbers, w, clock).map(|late| Done::Told { late }),
    }
}
