// The verdict on a route after the plan so far: on a path, and on the way of a reply.
#![tactic(auto)]

ghost use Rattle.std.specs.Prelude.{◌≡◌, false, OnOk};
ghost use Rattle.rules_plan.specs.Plan.{Plan};
ghost use Rattle.rules_plan.specs.Numbers.{fault_told};
ghost use Rattle.rules_plan.specs.laws.Fair.{Fair};
ghost use Rattle.memory_plan.specs.Memory.{sets_of, ends_of};
ghost use Rattle.load_path_faults.specs.Routes.{route, route_fault};

use load_walks::trace;
use memory_plan::layout::*;
use rules_plan::Fault;

// A route as its field gives it: where its walk starts and ends, what rows 7, 9 and 11 ask of the field, and the place in memory where that was found.
// Kept: the new form is no plainer: each of the three flags is a row of the table, and they are judged between the others.
#[derive(Drop)]
pub struct Asked {
    pub start: u8,
    pub end: u8,
    pub place: usize,
    pub again: bool,
    pub many: bool,
    pub alone: bool,
}

// The verdict on the route over these links, as its field asked of memory.
pub fn route_fault(sets: &Sets, ends: &Ends, links: &[u8], asked: &Asked) -> Result<(), Fault>
    ensures value { (p : Plan) → Fair p → sets.now ≡ sets_of p → ends.now ≡ ends_of p →
        fault_told result ≡ route_fault p (route asked.now.start asked.now.end links.now) asked.now.again asked.now.many asked.now.alone }
    ensures again_value { OnOk result ((asked.now.again ≡ false) × (asked.now.many ≡ false) × (asked.now.alone ≡ false)) }
{
    let start = asked.start;
    let end = asked.end;
    let t = trace(sets, ends, start, links, end);
    if 63 < start || 63 < end || t.over || start == end {
        return Err(Fault::OutOfRange);
    }
    if asked.again {
        return Err(Fault::GivenBefore);
    }
    let nodes = sets[NODES];
    if !bitsets::has(nodes, start)
        || !bitsets::has(nodes, end)
        || !bitsets::within(t.set, sets[LINKS])
    {
        return Err(Fault::NotGiven);
    }
    if asked.many {
        return Err(Fault::TooMany);
    }
    if !t.walk {
        return Err(Fault::NoWalk);
    }
    if asked.alone {
        return Err(Fault::NoPath);
    }
    Ok(())
}
