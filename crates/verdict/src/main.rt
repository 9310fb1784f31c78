// verdict: reads a plan from standard input to its end and prints its verdict, one line.
// A read error is said on standard error, and no verdict is printed. So is a line that cannot be written, and an input that
// begins with no tag, which is text or another file by mistake.
#![tactic(auto)]

ghost use Rattle.std.specs.Prelude.{◌≡◌, ◌++◌, ◌≤◌, IfOk, length, drop};
ghost use Rattle.rules_plan.specs.Judge.{judge};
ghost use Rattle.rules_plan.specs.Print.{line};

use box_calls::memory::PlanMemory;
use load_plan::load::load;
use out_verdict::print::print_verdict;
use std::io;
use std::io::{Read, Write};

// How many bytes came before the buffer was full or the input ended; a read may bring fewer bytes than there is room for.
fn read_all(input: &mut impl Read, buf: &mut [u8]) -> io::Result<usize>
    ensures { IfOk result (λ n. n ≤ length buf.new) }
{
    let mut n = 0;
    while n < buf.len() {
        let k = input.read(&mut buf[n..])?;
        if k == 0 {
            break;
        }
        n += k;
    }
    Ok(n)
}

// The line of the verdict on a file, and its length.
fn line_of(file: &[u8], out: &mut [u8; 40]) -> usize
    ensures { (result ≡ length (line (judge file.now))) × (out.new ≡ line (judge file.now) ++ drop (length (line (judge file.now))) out.old) × (result ≤ length out.new) }
{
    let mut m = PlanMemory::zeros();
    let verdict = load(
        file,
        &mut m.sets,
        &mut m.ends,
        &mut m.rows,
        &mut m.reach,
        &mut m.paths,
        &mut m.spans,
        &mut m.aims,
        &mut m.numbers,
    );
    print_verdict(out, verdict)
}

// Whether all of the bytes were written.
fn put(out: &mut impl Write, bytes: &[u8]) -> bool {
    out.write_all(bytes).is_ok()
}

// Says on standard error what a person should know beside the verdict. A plan file begins with a tag, 01 to 07.
fn tell(errors: &mut impl Write, first: u8, written: bool) {
    if !written {
        put(errors, b"verdict: standard output could not be written\n");
    }
    if first > 7 {
        put(
            errors,
            b"verdict: this begins with no tag of a plan file; of a plan in text, spwd-compile makes the file\n",
        );
    }
}

// One byte more than a plan may have is read, so that a longer input is judged as too long.
fn main(rt: HostRuntime) {
    let mut buf = [0u8; 16385];
    let Ok(n) = read_all(&mut rt.stdin(), &mut buf) else {
        put(
            &mut rt.stderr(),
            b"verdict: standard input could not be read\n",
        );
        return;
    };
    let mut out = [0u8; 40];
    let k = line_of(&buf[..n], &mut out);
    let written = put(&mut rt.stdout(), &out[..k]);
    tell(&mut rt.stderr(), buf[0], written);
}
