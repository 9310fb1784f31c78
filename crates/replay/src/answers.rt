// The lines that are in the input buffer answered, and the answers gathered in an output buffer.
ghost use Rattle.std.specs.Prelude.{◌≡◌, ◌≤◌};
ghost use Rattle.box_calls.specs.Calls.{Memory};
ghost use Rattle.box_calls.specs.Owned.{memory_of};
ghost use Rattle.replay.specs.Gather.{stand, flushed, roomy, Gathers, Passes, Ends, LinesAnswered};

use crate::lines::find_newline;
use box_calls::memory::BoxMemory;
use bytes_get::part;
use bytes_put::put;
use rules_box::Watchdog;
use script_desk::answer::{answer, over_long};
use std::io::{Stdout, Write};

// What goes on from line to line: how many lines were read, the five numbers, how many bytes are gathered, whether the rest of a line
// that is too long is to be passed over, and whether a write failed.
// Kept: the new form is no plainer: the two flags change apart, and `Ends` and `flushed` of specs/Gather tell each by itself.
#[derive(Clone, Copy)]
pub struct Desk {
    pub count: u64,
    pub watchdog: Watchdog,
    pub gathered: usize,
    pub passing: bool,
    pub failed: bool,
}

// Room for one answer, and for the answers gathered: two of the longest.
pub type Text = [u8; 65600];

pub type Output = [u8; 131200];

// Writes what is gathered, unless a write failed before; in either case nothing is gathered any more.
pub fn flush(mut to: Stdout, d: &mut Desk, out: &Output)
    ensures { d.new ≡ flushed d.new.failed d.old }
{
    let at = d.gathered;
    d.gathered = 0;
    if d.failed {
        return;
    }
    d.failed = to.write_all(part(out, 0, at)).is_err();
}

// Writes what is gathered where the longest answer might have no room behind it.
fn make_room(to: Stdout, d: &mut Desk, out: &Output)
    ensures { d.new ≡ roomy d.new.failed d.old }
{
    if d.gathered > 65_600 {
        flush(to, d, out);
    }
}

// One line answered, where its answer has room. Lines are counted modulo 2 to the 64, which no input reaches.
fn answer_line(line: &[u8], m: &mut BoxMemory, d: &mut Desk, text: &mut Text, out: &mut Output)
    requires { d.old.gathered ≤ 65_600 }
    ensures { Gathers line.now (stand d.old (memory_of m.old) text.old out.old) (stand d.new (memory_of m.new) text.new out.new) }
{
    d.count = d.count.wrapping_add(1);
    let end = answer(line, d.count, m, &mut d.watchdog, text);
    d.gathered = put(out, d.gathered, part(text, 0, end));
}

// A line that is longer than the input buffer: its answer, by the front of it that is there, and the rest of it is to be passed over.
pub fn pass_over(to: Stdout, front: &[u8], d: &mut Desk, text: &mut Text, out: &mut Output)
    ensures { (m : Memory) → Passes front.now (stand d.old m text.old out.old) (stand d.new m text.new out.new) }
{
    if d.passing {
        return;
    }
    make_room(to, d, out);
    let number = d.count.wrapping_add(1);
    let end = over_long(front, number, text);
    d.count = number;
    d.gathered = put(out, d.gathered, part(text, 0, end));
    d.passing = true;
}

// A line whose end was read: it is answered, or it was the rest of one that is passed over.
pub fn end_line(
    to: Stdout,
    line: &[u8],
    m: &mut BoxMemory,
    d: &mut Desk,
    text: &mut Text,
    out: &mut Output,
)
    ensures { Ends line.now (stand d.old (memory_of m.old) text.old out.old) (stand d.new (memory_of m.new) text.new out.new) }
{
    if d.passing {
        d.passing = false;
        return;
    }
    make_room(to, d, out);
    answer_line(line, m, d, text, out);
}

// Every line of the input that ends there; the answer is where the line begins whose end was not read yet.
pub fn answer_lines(
    to: Stdout,
    input: &[u8],
    m: &mut BoxMemory,
    d: &mut Desk,
    text: &mut Text,
    out: &mut Output,
) -> usize
    ensures { LinesAnswered input.now (stand d.old (memory_of m.old) text.old out.old) result (stand d.new (memory_of m.new) text.new out.new) }
{
    let mut start = 0;
    while let Some(end) = find_newline(input, start) {
        end_line(to, &input[start..end], m, d, text, out);
        start = end + 1;
    }
    start
}
