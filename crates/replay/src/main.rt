// replay: reads a script of commands from standard input and prints an answer for each line of it.
// Answers are written before more input is waited for. A read or a write that fails is said on standard error, after the answers so far.
#![tactic(auto)]

ghost use Rattle.std.specs.Prelude.{◌≡◌, ◌≤◌, length, replicate, MatchResult};
ghost use Rattle.box_calls.specs.Owned.{memory_of};
ghost use Rattle.replay.specs.Gather.{stand, Taken};
ghost use Rattle.replay.specs.Rounds.{Brings, Finishes, outcome, Serves};

use answers::{Desk, Output, Text, answer_lines, end_line, flush, pass_over};
use box_calls::memory::BoxMemory;
use lines::shift;
use rules_box::Watchdog;
use std::io;
use std::io::{Read, Stderr, Stdin, Stdout, Write};

mod answers;
mod lines;

// What ends the program early.
#[derive(Clone, Copy)]
enum Failure {
    Read,
    Write,
}

// How many bytes a read brings behind those that are there: it may be fewer than there is room for, and is 0 at the end of the input.
fn read_more(mut from: Stdin, input: &mut [u8], len: usize) -> io::Result<usize>
    requires { len ≤ length input.old }
    ensures { MatchResult result (λ k. Brings input.old len input.new k) (λ _. Brings input.old len input.new 0) }
{
    from.read(&mut input[len..])
}

// Room for the input, for an answer, and for the answers gathered: two of the longest; all 0.
fn input_room() -> [u8; 65536]
    ensures { result ≡ replicate 65_536 0 }
{
    [0; 65536]
}

fn text_room() -> Text
    ensures { result ≡ replicate 65_600 0 }
{
    [0; 65600]
}

fn output_room() -> Output
    ensures { result ≡ replicate 131_200 0 }
{
    [0; 131200]
}

// The lines that the input has so far; what is left begins at the front of the buffer, and the answer is how many bytes it is. A line that
// fills the buffer is passed over.
fn take_lines(
    to: Stdout,
    input: &mut [u8],
    len: usize,
    m: &mut BoxMemory,
    d: &mut Desk,
    text: &mut Text,
    out: &mut Output,
) -> usize
    requires { len ≤ length input.old }
    ensures { Taken input.old len (stand d.old (memory_of m.old) text.old out.old) input.new result (stand d.new (memory_of m.new) text.new out.new) }
{
    let start = answer_lines(to, &input[..len], m, d, text, out);
    let left = shift(input, start, len);
    if left < input.len() {
        return left;
    }
    pass_over(to, input, d, text, out);
    0
}

// The end of the input: a last line may lack its newline.
fn finish(
    to: Stdout,
    line: &[u8],
    m: &mut BoxMemory,
    d: &mut Desk,
    text: &mut Text,
    out: &mut Output,
)
    ensures { Finishes line.now (stand d.old (memory_of m.old) text.old out.old) (stand d.new (memory_of m.new) text.new out.new) }
{
    if line.len() > 0 {
        end_line(to, line, m, d, text, out);
    }
    flush(to, d, out);
}

// Whether every answer so far was written.
fn written(d: &Desk) -> Result<(), Failure>
    ensures { result ≡ outcome d.now.failed }
{
    if d.failed {
        Err(Failure::Write)
    } else {
        Ok(())
    }
}

// Reads and answers until the input ends or fails, or a write fails. The turns are counted only so that the loop is seen to end.
fn serve(from: Stdin, to: Stdout, m: &mut BoxMemory, cleared: Watchdog) -> Result<(), Failure>
    ensures { Serves (memory_of m.old) cleared result (memory_of m.new) }
{
    let mut input = input_room();
    let mut text = text_room();
    let mut out = output_room();
    let mut d = Desk {
        count: 0,
        watchdog: cleared,
        gathered: 0,
        passing: false,
        failed: false,
    };
    let mut len = 0;
    for _turn in 0..u64::MAX {
        let Ok(k) = read_more(from, &mut input, len) else {
            return Err(Failure::Read);
        };
        if k == 0 {
            finish(to, &input[..len], m, &mut d, &mut text, &mut out);
            return written(&d);
        }
        len = take_lines(to, &mut input, len + k, m, &mut d, &mut text, &mut out);
        flush(to, &mut d, &out);
        if d.failed {
            return Err(Failure::Write);
        }
    }
    Err(Failure::Read)
}

// Says on standard error what was not done.
fn say(mut errors: Stderr, text: &[u8]) {
    errors.write_all(text).is_ok();
}

// "The box starts as after a clear."
fn main(rt: HostRuntime) {
    let mut m = BoxMemory::zeros();
    let mut watchdog = Watchdog::default();
    box_calls::clear::clear(
        &mut m.plan.sets,
        &mut m.plan.ends,
        &mut m.plan.rows,
        &mut m.plan.reach,
        &mut m.plan.paths,
        &mut m.plan.spans,
        &mut m.plan.aims,
        &mut m.plan.numbers,
        &mut m.run,
        &mut m.last,
        &mut watchdog,
    );
    match serve(rt.stdin(), rt.stdout(), &mut m, watchdog) {
        Ok(()) => {}
        Err(Failure::Read) => say(rt.stderr(), b"replay: standard input could not be read\n"),
        Err(Failure::Write) => say(
            rt.stderr(),
            b"replay: standard output could not be written\n",
        ),
    }
}
