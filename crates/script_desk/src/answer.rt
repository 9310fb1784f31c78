// One line of a script answered: the box and the five numbers go on from command to command.
ghost use Rattle.std.specs.Prelude.{◌≡◌, ◌↔◌, ◌≤◌, true, length, replicate, []};
ghost use Rattle.rules_plan.specs.Print.{text};
ghost use Rattle.rules_box.specs.State.{cleared, watchdog_cleared};
ghost use Rattle.box_calls.specs.Calls.{At, ClearLeaves};
ghost use Rattle.box_calls.specs.Owned.{memory_of};
ghost use Rattle.script_hex.specs.Hex.{decoded};
ghost use Rattle.script_commands.specs.Script.{command_of};
ghost use Rattle.script_answers.specs.Texts.{ended, over_long_line, Prints};
ghost use Rattle.script_desk.specs.Replay.{five_of, kept, Loaded, Stepped, WrittenOut, Says, HasPlanOf, Replied, Answers};

use ask_next::next::next;
use box_blank::is_blank;
use box_calls::memory::{BoxMemory, PlanMemory};
use bytes_put::put;
use out_verdict::print::print_verdict;
use rules_box::{Event, Watchdog};
use run_events::values::values_of;
use script_answers::texts::{
    put_copied, put_error, put_event, put_flag, put_next, put_sheet, put_watchdog, put_word,
};
use script_commands::command::{Command, command_of};
use script_hex::decode;
use time_sheet::Latencies;

// Room for a load's file, for the records of a time-code and for a plan written out, all 0.
fn file_room() -> [u8; 16400]
    ensures { result ≡ replicate 16_400 0 }
{
    [0; 16400]
}

fn records_room() -> [u8; 4096]
    ensures { result ≡ replicate 4_096 0 }
{
    [0; 4096]
}

fn plan_room() -> [u8; 32768]
    ensures { result ≡ replicate 32_768 0 }
{
    [0; 32768]
}

// The load of a byte string. Each answer's length is told by these functions, 0 for nothing.
fn load(word: &[u8], m: &mut BoxMemory, five: &mut Watchdog, out: &mut [u8; 65600]) -> usize
    ensures { Answers (Loaded (decoded 16_400 word.now) (kept (memory_of m.new) five.new)) out.old out.new result }
{
    let mut file = file_room();
    let size = decode(word, &mut file);
    let verdict = box_calls::load::load(
        &file[..size],
        &mut m.plan.sets,
        &mut m.plan.ends,
        &mut m.plan.rows,
        &mut m.plan.reach,
        &mut m.plan.paths,
        &mut m.plan.spans,
        &mut m.plan.aims,
        &mut m.plan.numbers,
        &mut m.run,
        &mut m.last,
        five,
    );
    let mut line = [0u8; 40];
    let n = print_verdict(&mut line, verdict);
    put(out, 0, &line[..n])
}

// The clear.
fn clear(m: &mut BoxMemory, five: &mut Watchdog, out: &mut [u8; 65600]) -> usize
    ensures cleared { ClearLeaves (memory_of m.new) five.new }
    ensures prints { Prints (ended (text "CLEARED")) out.old out.new result }
{
    box_calls::clear::clear(
        &mut m.plan.sets,
        &mut m.plan.ends,
        &mut m.plan.rows,
        &mut m.plan.reach,
        &mut m.plan.paths,
        &mut m.plan.spans,
        &mut m.plan.aims,
        &mut m.plan.numbers,
        &mut m.run,
        &mut m.last,
        five,
    );
    put_word(out, b"CLEARED")
}

// An event with a record buffer.
fn step(
    m: &mut BoxMemory,
    five: &mut Watchdog,
    event: Event,
    records: &mut [u8],
    out: &mut [u8; 65600],
) -> usize
    requires { length records.old ≤ 4_096 }
    ensures { Answers (Stepped event records.old (kept (memory_of m.old) five.old) (kept (memory_of m.new) five.new)) out.old out.new result }
{
    let answer = run_events::step::step(
        &m.plan.rows,
        &m.plan.spans,
        &m.plan.aims,
        &m.plan.numbers,
        &mut m.run,
        &mut m.last,
        five,
        event,
        records,
    );
    let values = values_of(answer);
    put_event(out, event, &values, records)
}

// A time-code is lent a record buffer of some room; the other events write no records and are lent none.
fn with_records(
    m: &mut BoxMemory,
    five: &mut Watchdog,
    event: Event,
    room: usize,
    out: &mut [u8; 65600],
) -> usize
    requires { room ≤ 4_096 }
    ensures { Answers (Stepped event (replicate room 0) (kept (memory_of m.old) five.old) (kept (memory_of m.new) five.new)) out.old out.new result }
{
    let mut records = records_room();
    step(m, five, event, &mut records[..room], out)
}

fn without_records(
    m: &mut BoxMemory,
    five: &mut Watchdog,
    event: Event,
    out: &mut [u8; 65600],
) -> usize
    ensures { Answers (Stepped event [] (kept (memory_of m.old) five.old) (kept (memory_of m.new) five.new)) out.old out.new result }
{
    step(m, five, event, &mut [], out)
}

// The plan written out into some room.
fn write_out(m: &BoxMemory, room: usize, out: &mut [u8; 65600]) -> usize
    requires { room ≤ 32_768 }
    ensures { Answers (WrittenOut room (memory_of m.now)) out.old out.new result }
{
    let mut buffer = plan_room();
    let copied = out_plan::out::write_out(
        &m.plan.sets,
        &m.plan.ends,
        &m.plan.rows,
        &m.plan.paths,
        &m.plan.spans,
        &m.plan.aims,
        &m.plan.numbers,
        &mut buffer[..room],
    );
    put_copied(out, copied, &buffer[..room])
}

// Whether the box is one that a clear leaves.
fn blank(m: &BoxMemory, five: Watchdog) -> bool
    ensures { (result ≡ true) ↔ ((five ≡ watchdog_cleared) × At (memory_of m.now) cleared) }
{
    is_blank(
        &m.plan.sets,
        &m.plan.ends,
        &m.plan.rows,
        &m.plan.reach,
        &m.plan.paths,
        &m.plan.spans,
        &m.plan.aims,
        &m.plan.numbers,
        &m.run,
        &m.last,
        five,
    )
}

// Whether the box holds the plan of a byte string, which is read into memory beside the box's.
fn holds(word: &[u8], m: &BoxMemory, out: &mut [u8; 65600]) -> usize
    ensures { Answers (Says (HasPlanOf (decoded 16_400 word.now) (memory_of m.now))) out.old out.new result }
{
    let mut file = file_room();
    let size = decode(word, &mut file);
    let mut other = PlanMemory::zeros();
    let held = box_holds::holds(
        &file[..size],
        &m.plan.sets,
        &m.plan.ends,
        &m.plan.rows,
        &m.plan.reach,
        &m.plan.paths,
        &m.plan.spans,
        &m.plan.aims,
        &m.plan.numbers,
        &mut other.sets,
        &mut other.ends,
        &mut other.rows,
        &mut other.reach,
        &mut other.paths,
        &mut other.spans,
        &mut other.aims,
        &mut other.numbers,
    );
    put_flag(out, held)
}

// A line of which only the front is there, because it is longer than its reader takes: what it prints stands at the front of out.
pub fn over_long(line: &[u8], number: u64, out: &mut [u8; 65600]) -> usize
    ensures { Prints (over_long_line line.now number) out.old out.new result }
{
    if line.len() > 0 && line[0] == b'#' {
        return 0;
    }
    put_error(out, number)
}

// "a caller may lend any five numbers": seen and reported stay the numbers that were given, and all but 0 are yes.
fn five_of(last: u32, seen: u32, reported: u32, least: u32, greatest: u32) -> Watchdog
    ensures { result ≡ five_of last seen reported least greatest }
{
    Watchdog {
        last,
        seen,
        reported,
        least,
        greatest,
    }
}

// One line of a script: what it prints stands at the front of out, and the box and the five numbers are those after it.
pub fn answer(
    line: &[u8],
    number: u64,
    m: &mut BoxMemory,
    five: &mut Watchdog,
    out: &mut [u8; 65600],
) -> usize
    ensures { Answers (Replied (command_of line.now) line.now number (kept (memory_of m.old) five.old) (kept (memory_of m.new) five.new)) out.old out.new result }
{
    match command_of(line) {
        Command::Skip => 0,
        Command::Bad => put_error(out, number),
        Command::Load { at } => load(&line[at..], m, five, out),
        Command::Clear => clear(m, five, out),
        Command::TimeCode { byte, clock, room } => {
            with_records(m, five, Event::TimeCode { byte, clock }, room as usize, out)
        }
        Command::Request {
            initiator,
            target,
            kind,
            length,
        } => {
            let event = Event::Request {
                initiator,
                target,
                kind,
                length,
            };
            without_records(m, five, event, out)
        }
        Command::Reply {
            initiator,
            number: transaction,
            status,
        } => {
            let event = Event::Reply {
                initiator,
                number: transaction,
                status,
            };
            without_records(m, five, event, out)
        }
        Command::Reading { clock } => without_records(m, five, Event::Reading { clock }, out),
        Command::Out { room } => write_out(m, room as usize, out),
        Command::Watchdog => put_watchdog(out, *five),
        Command::SetWatchdog {
            last,
            seen,
            reported,
            least,
            greatest,
        } => {
            *five = five_of(last, seen, reported, least, greatest);
            put_word(out, b"OK")
        }
        Command::Sheet {
            there,
            home,
            rate,
            length,
            a,
            d,
            f,
            g,
        } => {
            let given = Latencies { a, d, f, g };
            put_sheet(out, time_sheet::sheet(there, home, rate, length, given))
        }
        Command::Next {
            initiator,
            target,
            length,
            slot,
        } => {
            let PlanMemory {
                rows,
                aims,
                numbers,
                ..
            } = &m.plan;
            let turn = next(rows, aims, numbers, initiator, target, length, slot);
            put_next(out, turn)
        }
        Command::Blank => {
            let cleared = blank(m, *five);
            put_flag(out, cleared)
        }
        Command::Holds { at } => holds(&line[at..], m, out),
    }
}
