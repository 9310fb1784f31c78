// Bytes in lowercase hex: those of a word, and bytes put into an answer line.
#![tactic(auto)]

ghost use Rattle.std.specs.Prelude.{◌≡◌, ◌++◌, ◌<◌, length, drop};
ghost use Rattle.lists.specs.Search.{is_some};
ghost use Rattle.lists.specs.Puts.{Puts};
ghost use Rattle.script_hex.specs.Hex.{is_hex, hex_of, bytes_of, decoded, hex_digit, hex_text};

use bytes_put::put;

// "up to 16,400 bytes", two digits each
const MOST_DIGITS: usize = 32_800;

fn is_hex(c: u8) -> bool
    ensures { result ≡ is_hex c }
{
    matches!(c, b'0'..=b'9' | b'a'..=b'f')
}

// Kept: a number, and 0 for every other byte, as the definition says: it is asked of hex digits alone, and an option would be opened again at once.
fn hex_of(c: u8) -> u8
    ensures { (result ≡ hex_of c) × (result < 16) }
{
    match c {
        b'0'..=b'9' => c - b'0',
        b'a'..=b'f' => 10 + (c - b'a'),
        _ => 0,
    }
}

// Whether a word is a byte string that may be loaded.
pub fn is_bytes(word: &[u8]) -> bool
    ensures { result ≡ is_some (bytes_of word.now) }
{
    match word {
        [] => false,
        [c] => *c == b'-',
        _ => word.len() <= MOST_DIGITS && word.len() % 2 == 0 && word.iter().all(|c| is_hex(*c)),
    }
}

// Puts the bytes of a word at the front of out, and answers how many there are: none where the word is no byte string or out is too
// short. Room beyond keeps its bytes.
pub fn decode(word: &[u8], out: &mut [u8]) -> usize
    ensures { (result ≡ length (decoded (length out.old) word.now)) × (out.new ≡ decoded (length out.old) word.now ++ drop result out.old) }
{
    if !is_bytes(word) {
        return 0;
    }
    let n = word.len() / 2;
    if out.len() < n {
        return 0;
    }
    for i in 0..n {
        let high = hex_of(word[2 * i]);
        let low = hex_of(word[2 * i + 1]);
        out[i] = 16 * high + low;
    }
    n
}

fn hex_digit(n: u8) -> u8
    requires { n < 16 }
    ensures { result ≡ hex_digit n }
{
    if n < 10 { b'0' + n } else { b'a' + (n - 10) }
}

// Puts the bytes in hex at a place where they have room, and answers the next place.
pub fn put_hex(out: &mut [u8], at: usize, bytes: &[u8]) -> usize
    ensures { Puts out.old at (hex_text bytes.now) out.new result }
{
    if bytes.is_empty() {
        return put(out, at, b"-");
    }
    let room = out.len();
    if room < at || (room - at) / 2 < bytes.len() {
        return at;
    }
    let mut k = at;
    for byte in bytes {
        out[k] = hex_digit(*byte / 16);
        out[k + 1] = hex_digit(*byte % 16);
        k += 2;
    }
    k
}
