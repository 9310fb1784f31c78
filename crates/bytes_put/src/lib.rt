// Bytes and decimal numbers put into a lent buffer, one behind the other.
#![tactic(auto)]

ghost use Rattle.std.specs.Prelude.{◌+◌, ◌≤◌, length};
ghost use Rattle.lists.specs.Stores.{Put};
ghost use Rattle.lists.specs.Puts.{Puts};
ghost use Rattle.rules_plan.specs.Print.{decimal};

// Puts the bytes of s at a place, and answers the next one.
pub fn put_bytes(out: &mut [u8], at: usize, s: &[u8]) -> usize
    requires { at + length s.now ≤ length out.old }
    ensures { Put out.old at s.now out.new result }
{
    let end = at + s.len();
    out[at..end].copy_from_slice(s);
    end
}

// The same where they have room; where they have none, nothing is asked of the answer and of the buffer.
pub fn put(out: &mut [u8], at: usize, s: &[u8]) -> usize
    ensures { Puts out.old at s.now out.new result }
{
    let room = out.len();
    if room < s.len() || room - s.len() < at {
        return at;
    }
    put_bytes(out, at, s)
}

// Puts the decimal digits of n in the same way.
pub fn put_decimal(out: &mut [u8], at: usize, n: u64) -> usize
    ensures { Puts out.old at (decimal n) out.new result }
{
    let digit = [b'0' + (n % 10) as u8];
    if n < 10 {
        return put(out, at, &digit);
    }
    let k = put_decimal(out, at, n / 10);
    put(out, k, &digit)
}
