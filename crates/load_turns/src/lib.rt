// An entry in the summary of the plan: its slot is put to those of each of its targets, and to those of each span that it is no shorter than.
#![tactic(auto)]

ghost use Rattle.std.specs.Prelude.{◌≡◌, false, ◌≤◌, ◌<◌, length};
ghost use Rattle.lists.specs.Search.{any};
ghost use Rattle.rules_plan.specs.Judge.{over63};
ghost use Rattle.load_turns.specs.Marked.{Marked, is_target, is_span, is_marked};

use bitsets::add;
use memory_plan::layout::*;

// Puts the slot to those of each target.
fn mark_targets(aims: &mut Aims, row: usize, slot: u8, targets: &[u8])
    requires { (row < 8) × (any over63 targets.now ≡ false) }
    ensures { length aims.old ≡ 1_152 → Marked (is_target row targets.now) slot aims.old aims.new }
{
    for target in targets {
        let at = TURNS + (row * SLOTS + *target as usize);
        aims[at] = add(aims[at], slot);
    }
}

// Puts the slot to those of each span up to the entry's.
fn mark_span(aims: &mut Aims, row: usize, slot: u8, span: u8)
    requires { (row < 8) × (span ≤ 16) }
    ensures { length aims.old ≡ 1_152 → Marked (is_span row span) slot aims.old aims.new }
{
    for k in 0..span as usize {
        let at = LONG + (row * LONGEST + k);
        aims[at] = add(aims[at], slot);
    }
}

// Puts the slot of an entry of the row into the summary.
pub fn keep_turns(aims: &mut Aims, row: usize, slot: u8, span: u8, targets: &[u8])
    requires { (row < 8) × (span ≤ 16) × (any over63 targets.now ≡ false) }
    ensures { length aims.old ≡ 1_152 → Marked (is_marked row span targets.now) slot aims.old aims.new }
{
    mark_targets(aims, row, slot, targets);
    mark_span(aims, row, slot, span);
}
