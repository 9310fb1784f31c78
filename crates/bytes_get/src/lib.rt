// What is read of lent bytes: a number of two or four bytes, a byte as a count, a part of them.
#![tactic(auto)]

ghost use Rattle.std.specs.Prelude.{◌≡◌, ◌+◌, ◌*◌, ◌≤◌, ◌<◌, length, take, drop};
ghost use Rattle.rules_plan.specs.Plan.{two, four};

// Two and four bytes at a place as a number, most significant first.
pub fn two_at(s: &[u8], at: usize) -> u16
    requires { at + 2 ≤ length s.now }
    ensures { result ≡ two s.now at }
{
    u16::from_be_bytes([s[at], s[at + 1]])
}

pub fn four_at(s: &[u8], at: usize) -> u32
    requires { at + 4 ≤ length s.now }
    ensures { result ≡ four s.now at }
{
    u32::from_be_bytes([s[at], s[at + 1], s[at + 2], s[at + 3]])
}

// A byte as a count.
pub fn wide(x: u8) -> usize
    ensures { (result ≡ x) × (result < 256) }
{
    usize::from(x)
}

// "A field's content is handed on as a part of the file's own bytes": size bytes from start on, as many of them as there are.
pub fn part(file: &[u8], start: usize, size: usize) -> &[u8]
    ensures { result.now ≡ take size (drop start file.now) }
{
    let rest = file.get(start..).unwrap_or(&[]);
    rest.get(..size).unwrap_or(rest)
}
