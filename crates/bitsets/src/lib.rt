// A set of numbers from 0 to 63, kept as a u64: k is in the set where the bit k is 1.
// Each function takes every set and every number; a number of 64 or more is in no set.
// Kept: functions over u64, and no type of its own for a set: the C interface lends the sets as words.
#![tactic(auto)]

ghost use Rattle.std.specs.Prelude.{◌≡◌, not, ◌&&◌, ◌||◌, ℕ, eqb};
ghost use Rattle.bitsets.specs.Set.{member, alone, added, common, listed, disjoint_of, within_of, least_of, size_of};

// Whether t is in s.
pub fn has(s: u64, t: u8) -> bool
    ensures { result ≡ member t s }
{
    t < 64 && (s >> t) % 2 == 1
}

// The set of t alone, and the empty set where t is 64 or more.
fn single(t: u8) -> u64
    ensures { (k : ℕ) → member k result ≡ alone t k }
{
    if t >= 64 { 0 } else { 1u64 << t }
}

// The set s with t in it; s itself where t is 64 or more.
pub fn add(s: u64, t: u8) -> u64
    ensures { (k : ℕ) → member k result ≡ added t s k }
{
    single(t) | s
}

// The set s without t.
pub fn without(s: u64, t: u8) -> u64
    ensures { (k : ℕ) → member k result ≡ (not (eqb k t) && member k s) }
{
    !single(t) & s
}

// What is in a or in b.
pub fn union(a: u64, b: u64) -> u64
    ensures { (k : ℕ) → member k result ≡ (member k a || member k b) }
{
    a | b
}

// What is in a and in b.
pub fn both(a: u64, b: u64) -> u64
    ensures { (k : ℕ) → member k result ≡ common a b k }
{
    a & b
}

// Whether nothing is in s.
pub fn is_empty(s: u64) -> bool
    ensures { result ≡ eqb s 0 }
{
    s == 0
}

// Whether nothing is in both sets.
pub fn disjoint(a: u64, b: u64) -> bool
    ensures { result ≡ disjoint_of a b }
{
    both(a, b) == 0
}

// Whether every member of a is in b.
pub fn within(a: u64, b: u64) -> bool
    ensures { result ≡ within_of a b }
{
    disjoint(a, !b)
}

// The least member of s, and 64 where s is empty.
pub fn least(s: u64) -> u32
    ensures { result ≡ least_of s }
{
    u64::trailing_zeros(s)
}

// The set s without its least member.
pub fn without_least(s: u64) -> u64
    ensures { (k : ℕ) → member k result ≡ (not (eqb k (least_of s)) && member k s) }
{
    if s == 0 { 0 } else { s & (s - 1) }
}

// How many members s has.
pub fn size(s: u64) -> u32
    ensures { result ≡ size_of s }
{
    u64::count_ones(s)
}

// The set of the numbers of a list; those of 64 and more are left out.
pub fn set_of(s: &[u8]) -> u64
    ensures { (k : ℕ) → member k result ≡ listed s.now k }
{
    let mut set = 0;
    for t in s {
        set = add(set, *t);
    }
    set
}
