// A walk over links: from a start to an end over routers, meeting no device twice. The links are gone through once, with sets of devices.
#![tactic(auto)]

ghost use Rattle.std.specs.Prelude.{◌≡◌, ◌≢◌, true, false, ◌&&◌, ◌||◌, ℕ, ◌+◌, ◌*◌, ◌<◌, eqb};
ghost use mathlib.Core.List.{List, Memᴰ};
ghost use Rattle.lists.specs.Search.{any, all};
ghost use Rattle.bitsets.specs.Set.{member, alone, listed};
ghost use Rattle.rules_plan.specs.Plan.{nth, Plan};
ghost use Rattle.rules_plan.specs.Meaning.{is_link, is_walk};
ghost use Rattle.rules_plan.specs.Judge.{over63};
ghost use Rattle.rules_plan.specs.laws.Fair.{Fair};
ghost use Rattle.memory_plan.specs.Memory.{sets_of, ends_of};

use load_items::several::bit_of;
use memory_plan::layout::*;

// What one pass over the links of a path tells: whether one is over 63, and, where none is, their set; and, where all are links of the plan,
// whether they are a walk.
// Kept: the new form is no plainer: between a link over 63 (6) and a walk (10) stand rows 7 to 9, which need the set.
#[derive(Drop)]
pub struct Traced {
    pub over: bool,
    pub set: u64,
    pub walk: bool,
}

// The two devices that a link joins, as a set.
fn joined(ends: &Ends, link: u8) -> u64
    ensures { link < 64 → nth ends.now (link * 2) < 64 → nth ends.now (link * 2 + 1) < 64 →
        (k : ℕ) → member k result ≡ (alone (nth ends.now (link * 2)) k || alone (nth ends.now (link * 2 + 1)) k) }
{
    let place = (link % 64) as usize * 2;
    let one = ends[place];
    let other = ends[place + 1];
    bit_of(one) | bit_of(other)
}

// Whether nothing is broken, the end is here, and every device met is the start, the end or a router.
fn arrived(sets: &Sets, start: u8, end: u8, here: u64, met: u64, broken: u64) -> bool
    ensures { (broken ≢ 0 → result ≡ false) × (broken ≡ 0 → (xs : List ℕ) → ((x : ℕ) → Memᴰ x xs → x < 64) → ((k : ℕ) → member k met ≡ listed xs k) →
        result ≡ (member end here && all (λ (x : ℕ). eqb x start || (eqb x end || member x (nth sets.now 1))) xs)) }
{
    broken == 0
        && bitsets::has(here, end)
        && bitsets::within(met, bitsets::add(bitsets::add(sets[ROUTERS], end), start))
}

// Goes over the links: here is the device reached, alone. A link takes its two devices out of that set or puts them in, so that the other
// end is left; where it does not touch the device reached, that one stays, and has been met. So what is met twice, and a link that does not
// lead on, show alike, in broken.
pub fn trace(sets: &Sets, ends: &Ends, start: u8, links: &[u8], end: u8) -> Traced
    ensures { (result.over ≡ any over63 links.now)
        × (any over63 links.now ≡ false → (k : ℕ) → member k result.set ≡ listed links.now k)
        × ((p : Plan) → Fair p → start < 64 → all (is_link p) links.now ≡ true →
        sets.now ≡ sets_of p → ends.now ≡ ends_of p → result.walk ≡ is_walk p start links.now end) }
{
    let mut over: u8 = 0;
    let mut set: u64 = 0;
    let mut here = bit_of(start);
    let mut met = here;
    let mut broken: u64 = 0;
    for &link in links {
        over |= link;
        set |= bit_of(link);
        here ^= joined(ends, link);
        broken |= met & here;
        met |= here;
    }
    Traced {
        over: 63 < over,
        set,
        walk: arrived(sets, start, end, here, met, broken),
    }
}
