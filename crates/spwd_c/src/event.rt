// The four events, as C calls them. "A refusal leaves state, buffers and watchdog numbers untouched and answers its number, all else 0."
ghost use Rattle.spwd_c.specs.Exports.{TimeCodes, Requests, Replies, Readings};

use memory_plan::layout::*;
use memory_run::layout::*;
use rules_box::{Done, Watchdog};
use run_events::reading::reading;
use run_events::values::values_of;
use run_requests::reply::reply;
use run_requests::request::request;
use run_timecodes::time::time_code;

#[unsafe(no_mangle)]
pub extern "C" fn spwd_c_time_code(
    spans: &Spans,
    aims: &Aims,
    numbers: &Numbers,
    run: &mut Run,
    last: &mut Last,
    watchdog: &mut Watchdog,
    byte: u8,
    clock: u32,
    records: &mut [u8],
    answer: &mut [u32; 8],
)
    ensures { TimeCodes spans.now aims.now numbers.now run.old last.old watchdog.old byte clock records.old
        run.new last.new watchdog.new records.new answer.new }
{
    let recorded = time_code(
        spans, aims, numbers, run, last, watchdog, byte, clock, records,
    );
    *answer = values_of(recorded.map(|count| Done::Recorded { count }));
}

#[unsafe(no_mangle)]
pub extern "C" fn spwd_c_request(
    rows: &Rows,
    aims: &Aims,
    numbers: &Numbers,
    run: &mut Run,
    initiator: u8,
    target: u8,
    kind: u8,
    length: u16,
    answer: &mut [u32; 8],
)
    ensures { Requests rows.now aims.now numbers.now run.old initiator target kind length run.new answer.new }
{
    let joined = request(rows, aims, numbers, run, initiator, target, kind, length);
    *answer = values_of(joined.map(|number| Done::Joined { number }));
}

#[unsafe(no_mangle)]
pub extern "C" fn spwd_c_reply(
    rows: &Rows,
    numbers: &Numbers,
    run: &mut Run,
    initiator: u8,
    transaction: u16,
    status: u8,
    answer: &mut [u32; 8],
)
    ensures { Replies rows.now numbers.now run.old initiator transaction status run.new answer.new }
{
    let ended = reply(rows, numbers, run, initiator, transaction, status);
    *answer = values_of(ended.map(|ending| Done::Ended(ending)));
}

#[unsafe(no_mangle)]
pub extern "C" fn spwd_c_reading(
    numbers: &Numbers,
    watchdog: &mut Watchdog,
    clock: u32,
    answer: &mut [u32; 8],
)
    ensures { Readings numbers.now watchdog.old clock watchdog.new answer.new }
{
    *answer = values_of(reading(numbers, watchdog, clock).map(|late| Done::Told { late }));
}
