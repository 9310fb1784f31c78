// The printed verdict: one line, words and decimal numbers with one space between, then a newline, in a lent buffer.
ghost use Rattle.std.specs.Prelude.{◌≡◌, [], ◌∷◌, ◌++◌, ◌+◌, ◌*◌, ◌≤◌, length, drop};
ghost use Rattle.lists.specs.Stores.{Put};
ghost use Rattle.rules_plan.specs.Print.{spaced, numbers, line};

use bytes_put::{put_bytes, put_decimal};
use rules_plan::Verdict;

// A space, and the decimal digits of n.
fn put_number(out: &mut [u8], at: usize, n: u16) -> usize
    requires { at + 6 ≤ length out.old }
    ensures { Put out.old at (spaced n) out.new result × (result ≤ at + 6) }
{
    out[at] = b' ';
    put_decimal(out, at + 1, u64::from(n))
}

// Each of the numbers, a space before it.
fn put_numbers(out: &mut [u8], at: usize, ns: &[u16]) -> usize
    requires { at + 6 * length ns.now ≤ length out.old }
    ensures { Put out.old at (numbers ns.now) out.new result × (result ≤ at + 6 * length ns.now) }
{
    let mut k = at;
    for n in ns {
        k = put_number(out, k, *n);
    }
    k
}

// A word, the numbers, a newline.
fn put_line(out: &mut [u8], word: &[u8], ns: &[u16]) -> usize
    requires { length word.now + 6 * length ns.now + 1 ≤ length out.old }
    ensures { Put out.old 0 (word.now ++ numbers ns.now ++ (10 ∷ [])) out.new result × (result ≤ length out.old) }
{
    let a = put_bytes(out, 0, word);
    let b = put_numbers(out, a, ns);
    put_bytes(out, b, b"\n")
}

// Puts the line of a verdict into the buffer, and answers its length. The rest of the buffer keeps its bytes.
pub fn print_verdict(out: &mut [u8; 40], v: Verdict) -> usize
    ensures { (result ≡ length (line v)) × (out.new ≡ line v ++ drop (length (line v)) out.old) }
{
    match v {
        Verdict::Accepted {
            devices,
            links,
            paths,
            entries,
        } => {
            let ns = [devices as u16, links as u16, paths as u16, entries];
            put_line(out, b"ACCEPTED", &ns)
        }
        Verdict::Faulty { number, place } => {
            let ns = [number as u16, place];
            put_line(out, b"REFUSED", &ns)
        }
        Verdict::Overrun { initiator, slot } => {
            let ns = [13, initiator as u16, slot as u16];
            put_line(out, b"REFUSED", &ns)
        }
        Verdict::Clash {
            slot,
            smaller,
            greater,
            link,
        } => {
            let ns = [14, slot as u16, smaller as u16, greater as u16, link as u16];
            put_line(out, b"REFUSED", &ns)
        }
    }
}
