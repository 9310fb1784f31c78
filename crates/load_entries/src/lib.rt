// An entry: judged after the plan so far, and put at its row and slot and into the summary.
#![tactic(auto)]

ghost use Rattle.std.specs.Prelude.{◌≡◌, ℕ, ◌<◌, ◌&&◌, List, length, if◌then◌else◌};
ghost use mathlib.Core.List.{Memᴰ};
ghost use Rattle.lists.specs.Search.{all};
ghost use Rattle.bitsets.specs.Set.{member, listed};
ghost use Rattle.rules_plan.specs.Plan.{nth, Plan};
ghost use Rattle.rules_plan.specs.Numbers.{fault_number, fault_told};
ghost use Rattle.rules_plan.specs.laws.Fair.{Fair};
ghost use Rattle.memory_plan.specs.Memory.{sets_of, rows_of, reach_of, spans_of, aims_of, numbers_with};
ghost use Rattle.memory_plan.specs.Take.{item_fault, taken, entry_item};

use load_items::several::gather;
use load_turns::keep_turns;
use memory_plan::at_most;
use memory_plan::layout::*;
use memory_plan::rows::row_among;
use rules_plan::Fault;

// The fault of an entry with a target that its initiator has no path to: 8 where one of them is no node, else 11. (Who has a path, and whom
// it leads to, are nodes: so a verdict 8 need not be looked for before.)
fn not_reached(sets: &Sets, initiator: u8, targets: u64) -> Fault
    ensures { (xs : List ℕ) → ((x : ℕ) → Memᴰ x xs → x < 64) → ((k : ℕ) → member k targets ≡ listed xs k) →
        fault_number result ≡ (if member initiator (nth sets.now 0) && all (λ (x : ℕ). member x (nth sets.now 0)) xs then 11 else 8) }
{
    let nodes = sets[NODES];
    if bitsets::has(nodes, initiator) && bitsets::within(targets, nodes) {
        Fault::NoPath
    } else {
        Fault::NotGiven
    }
}

// Judges the entry; without a fault spans, aims and numbers have it. An entry has a target at least.
pub fn entry(
    sets: &Sets,
    rows: &Rows,
    reach: &Reach,
    spans: &mut Spans,
    aims: &mut Aims,
    numbers: &mut Numbers,
    initiator: u8,
    slot: u8,
    span: u8,
    targets: &[u8],
) -> Result<(), Fault>
    requires { 0 < length targets.now }
    ensures { (size : ℕ) (p : Plan) → Fair p → sets.now ≡ sets_of p → rows.now ≡ rows_of p → reach.now ≡ reach_of p →
        spans.old ≡ spans_of p → aims.old ≡ aims_of p → numbers.old ≡ numbers_with size p →
        (fault_told result ≡ item_fault p (entry_item initiator slot span targets.now))
        × (spans.new ≡ spans_of (taken p (entry_item initiator slot span targets.now)))
        × (aims.new ≡ aims_of (taken p (entry_item initiator slot span targets.now)))
        × (numbers.new ≡ numbers_with size (taken p (entry_item initiator slot span targets.now))) }
{
    if 63 < initiator || 63 < slot || span == 0 || 16 < span {
        return Err(Fault::OutOfRange);
    }
    let aimed = gather(targets)?;
    let count = numbers[INITIATORS];
    let row = row_among(rows, count, initiator);
    let at = row * SLOTS + slot as usize;
    let known = row < at_most(count, ROWS);
    if known && spans[at] != 0 {
        return Err(Fault::GivenBefore);
    }
    if !known || !bitsets::within(aimed, reach[row]) {
        return Err(not_reached(sets, initiator, aimed));
    }
    spans[at] = span;
    aims[at] = aimed;
    keep_turns(aims, row, slot, span, targets);
    let entries = numbers[ENTRIES];
    numbers[ENTRIES] = std::num::wrapping_add_u32(entries, 1);
    Ok(())
}
