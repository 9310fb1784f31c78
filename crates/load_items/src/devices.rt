// A device: judged after the plan so far, and put into its set.
ghost use Rattle.std.specs.Prelude.{◌≡◌};
ghost use Rattle.rules_plan.specs.Plan.{Plan};
ghost use Rattle.rules_plan.specs.Numbers.{fault_told};
ghost use Rattle.rules_plan.specs.laws.Fair.{Fair};
ghost use Rattle.memory_plan.specs.Memory.{sets_of};
ghost use Rattle.memory_plan.specs.Take.{item_fault, taken, device_item};

use memory_plan::layout::*;
use rules_plan::Fault;

// Judges the device; without a fault the sets have it.
pub fn device(sets: &mut Sets, num: u8, kind: u8) -> Result<(), Fault>
    ensures { (p : Plan) → Fair p → sets.old ≡ sets_of p →
        (fault_told result ≡ item_fault p (device_item num kind)) × (sets.new ≡ sets_of (taken p (device_item num kind))) }
{
    if 63 < num || 1 < kind {
        return Err(Fault::OutOfRange);
    }
    let nodes = sets[NODES];
    let routers = sets[ROUTERS];
    if bitsets::has(bitsets::union(nodes, routers), num) {
        return Err(Fault::GivenBefore);
    }
    if kind == 0 {
        sets[NODES] = bitsets::add(nodes, num);
    } else {
        sets[ROUTERS] = bitsets::add(routers, num);
    }
    Ok(())
}
