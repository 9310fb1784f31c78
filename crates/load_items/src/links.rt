// A link: judged after the plan so far, put into the set of links, and its two ends kept, the smaller first.
ghost use Rattle.std.specs.Prelude.{◌≡◌};
ghost use Rattle.rules_plan.specs.Plan.{Plan};
ghost use Rattle.rules_plan.specs.Numbers.{fault_told};
ghost use Rattle.rules_plan.specs.laws.Fair.{Fair};
ghost use Rattle.memory_plan.specs.Memory.{sets_of, ends_of};
ghost use Rattle.memory_plan.specs.Take.{item_fault, taken, link_item};

use memory_plan::layout::*;
use rules_plan::Fault;

// Judges the link; without a fault sets and ends have it.
pub fn link(sets: &mut Sets, ends: &mut Ends, num: u8, one: u8, other: u8) -> Result<(), Fault>
    ensures { (p : Plan) → Fair p → sets.old ≡ sets_of p → ends.old ≡ ends_of p →
        (fault_told result ≡ item_fault p (link_item num one other))
        × (sets.new ≡ sets_of (taken p (link_item num one other)))
        × (ends.new ≡ ends_of (taken p (link_item num one other))) }
{
    if 63 < num || 63 < one || 63 < other || one == other {
        return Err(Fault::OutOfRange);
    }
    let given = sets[LINKS];
    if bitsets::has(given, num) {
        return Err(Fault::GivenBefore);
    }
    let devices = bitsets::union(sets[NODES], sets[ROUTERS]);
    if !bitsets::has(devices, one) || !bitsets::has(devices, other) {
        return Err(Fault::NotGiven);
    }
    sets[LINKS] = bitsets::add(given, num);
    let at = num as usize * 2;
    ends[at] = one.min(other);
    ends[at + 1] = one.max(other);
    Ok(())
}
