// The lines that commands print, each at the front of a buffer that has room for the longest: the hex of 32,768 bytes behind two numbers.
ghost use Rattle.std.specs.Prelude.{◌≡◌, ◌*◌, ◌≤◌, length};
ghost use Rattle.script_answers.specs.Texts.{ended, error_line, numbers_line, bytes_line, event_line, out_line, yes_or_no, watchdog_line, sheet_line, next_line, flag_line, Prints};
ghost use Rattle.rules_plan.specs.Copy.{sized, copied_told};
ghost use Rattle.rules_plan.specs.Next.{next_told};
ghost use Rattle.rules_plan.specs.Sheet.{sheet_told};
ghost use Rattle.rules_box.specs.Answer.{Values};
ghost use Rattle.rules_box.specs.Refuse.{record_size};
ghost use Rattle.run_events.specs.Values.{listed};

use bytes_get::part;
use bytes_put::{put, put_decimal};
use rules_box::{Event, Watchdog};
use rules_plan::{Fault, Refusal, Terms};
use script_hex::put_hex;
use script_words::put_numbers;

pub fn put_error(out: &mut [u8; 65600], number: u64) -> usize
    ensures { Prints (error_line number) out.old out.new result }
{
    let a = put(out, 0, b"ERROR line ");
    let b = put_decimal(out, a, number);
    put(out, b, b"\n")
}

pub fn put_row(out: &mut [u8; 65600], ns: &[u32]) -> usize
    requires { length ns.now ≤ 5 }
    ensures { Prints (numbers_line ns.now) out.old out.new result }
{
    let a = put_numbers(out, 0, ns);
    put(out, a, b"\n")
}

pub fn put_bytes(out: &mut [u8; 65600], ns: &[u32], bytes: &[u8]) -> usize
    requires { (length ns.now ≤ 2) × (length bytes.now ≤ 32_768) }
    ensures { Prints (bytes_line ns.now bytes.now) out.old out.new result }
{
    let a = put_numbers(out, 0, ns);
    let b = put(out, a, b" ");
    let c = put_hex(out, b, bytes);
    put(out, c, b"\n")
}

fn records_size(count: u32) -> usize
    ensures { result ≡ record_size * count }
{
    8 * count as usize
}

// The line of an event, by its answer's values and the record buffer after it: at most as many records as the buffer has.
pub fn put_event(out: &mut [u8; 65600], event: Event, values: &[u32; 8], records: &[u8]) -> usize
    requires { length records.now ≤ 4_096 }
    ensures { (v : Values) → values.now ≡ listed v → Prints (event_line event v records.now) out.old out.new result }
{
    let number = values[0];
    match event {
        Event::TimeCode { byte, clock } => {
            let count = values[1];
            let ns = [number, count];
            put_bytes(out, &ns, part(records, 0, records_size(count)))
        }
        Event::Request {
            initiator,
            target,
            kind,
            length,
        } => {
            let ns = [number, values[2]];
            put_row(out, &ns)
        }
        Event::Reply {
            initiator,
            number: transaction,
            status,
        } => {
            let ns = [number, values[3], values[4], values[5], values[6]];
            put_row(out, &ns)
        }
        Event::Reading { clock } => {
            let ns = [number, values[7]];
            put_row(out, &ns)
        }
    }
}

fn yes_or_no(n: u32) -> u32
    ensures { result ≡ yes_or_no n }
{
    if n == 0 { 0 } else { 1 }
}

pub fn put_watchdog(out: &mut [u8; 65600], w: Watchdog) -> usize
    ensures { Prints (watchdog_line w) out.old out.new result }
{
    let ns = [
        w.last,
        yes_or_no(w.seen),
        yes_or_no(w.reported),
        w.least,
        w.greatest,
    ];
    put_row(out, &ns)
}

// A fixed line.
pub fn put_word(out: &mut [u8; 65600], word: &[u8]) -> usize
    requires { length word.now ≤ 65_599 }
    ensures { Prints (ended word.now) out.old out.new result }
{
    let a = put(out, 0, word);
    put(out, a, b"\n")
}

// The line of a question of yes or no.
pub fn put_flag(out: &mut [u8; 65600], flag: bool) -> usize
    ensures { Prints (flag_line flag) out.old out.new result }
{
    if flag {
        put_word(out, b"1")
    } else {
        put_word(out, b"0")
    }
}

// The line of a plan written out, by the answer and the buffer after it.
pub fn put_copied(out: &mut [u8; 65600], copied: Result<u16, Refusal>, buffer: &[u8]) -> usize
    requires { length buffer.now ≤ 32_768 }
    ensures { Prints (out_line (sized (copied_told copied)) buffer.now) out.old out.new result }
{
    match copied {
        Ok(size) => put_bytes(out, &[0, size as u32], part(buffer, 0, size as usize)),
        Err(refusal) => put_bytes(out, &[u8::from(refusal) as u32, 0], &[]),
    }
}

// The line of a sheet: its number, and the sum or 0.
pub fn put_sheet(out: &mut [u8; 65600], sheet: Result<Terms, Fault>) -> usize
    ensures { Prints (sheet_line (sheet_told sheet)) out.old out.new result }
{
    match sheet {
        Ok(terms) => put_row(out, &[0, terms.sum]),
        Err(fault) => put_row(out, &[u8::from(fault) as u32, 0]),
    }
}

// The line of the question for the next turn: its number, and the count or 0.
pub fn put_next(out: &mut [u8; 65600], next: Result<u8, Refusal>) -> usize
    ensures { Prints (next_line (next_told next)) out.old out.new result }
{
    match next {
        Ok(count) => {
            let ns = [0, count as u32];
            put_row(out, &ns)
        }
        Err(refusal) => {
            let ns = [u8::from(refusal) as u32, 0];
            put_row(out, &ns)
        }
    }
}
