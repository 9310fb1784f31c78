// The words of a line, the numbers that they are, and numbers put into an answer line.
#![tactic(auto)]

ghost use Rattle.std.specs.Prelude.{◌≡◌, ◌≤◌, length, drop};
ghost use Rattle.lists.specs.Options.{as_option};
ghost use Rattle.lists.specs.Puts.{Puts};
ghost use Rattle.script_words.specs.Words.{number_of};
ghost use Rattle.script_words.specs.Reading.{WordEnds, NumbersRead, behind_word};
ghost use Rattle.script_words.specs.Lines.{in_row};

use bytes_put::{put, put_decimal};

// The length of the word that s begins with: up to the first space, or the end.
pub fn word_length(s: &[u8]) -> usize
    ensures { WordEnds s.now result }
{
    s.iter().position(|c| *c == b' ').unwrap_or(s.len())
}

// The number of a word, where it is one and at most `most`.
fn number(word: &[u8], most: u32) -> Option<u32>
    ensures { result ≡ as_option (number_of most word.now) }
{
    if word.is_empty() {
        return None;
    }
    let mut n: u64 = 0;
    for digit in word {
        if !digit.is_ascii_digit() {
            return None;
        }
        n = 10 * n + u64::from(*digit - b'0');
        if n > u64::from(most) {
            return None;
        }
    }
    Some(n as u32)
}

// Reads the words behind the one that ends at a place: a number for each of mosts and at most it, and no word more.
pub fn numbers(line: &[u8], end: usize, mosts: &[u32], out: &mut [u32]) -> bool
    requires { (end ≤ length line.now) × (length mosts.now ≤ length out.old) }
    ensures { NumbersRead mosts.now (behind_word (drop end line.now)) out.old out.new result }
{
    let mut at = end;
    for (i, most) in mosts.iter().enumerate() {
        if at == line.len() {
            return false;
        }
        let start = at + 1;
        let rest = &line[start..];
        let size = word_length(rest);
        let Some(n) = number(&rest[..size], *most) else {
            return false;
        };
        out[i] = n;
        at = start + size;
    }
    at == line.len()
}

// Puts the numbers with one space between at a place where they have room, and answers the next place.
pub fn put_numbers(out: &mut [u8], at: usize, ns: &[u32]) -> usize
    ensures { Puts out.old at (in_row ns.now) out.new result }
{
    let Some((first, others)) = ns.split_first() else {
        return at;
    };
    let mut k = put_decimal(out, at, u64::from(*first));
    for n in others {
        k = put(out, k, b" ");
        k = put_decimal(out, k, u64::from(*n));
    }
    k
}
