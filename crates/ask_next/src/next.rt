// "T-04 When is my next turn?": asked of the plan in memory, by the row of the initiator, the times and the summary. No entry is read.
ghost use Rattle.std.specs.Prelude.{◌≡◌, ◌≢◌, ℕ, ◌+◌, ◌%◌, ◌<◌};
ghost use Rattle.lists.specs.Numbers.{first_from};
ghost use Rattle.bitsets.specs.Set.{member};
ghost use Rattle.rules_plan.specs.Next.{next_told};
ghost use Rattle.ask_next.specs.Asked.{TellsNext};

use crate::refused::{no_turn, own_row};
use bitsets::{is_empty, least};
use memory_plan::entry::least_span;
use memory_plan::layout::*;
use memory_plan::turns::{aimed_at, lasting};
use rules_plan::Refusal;

// How many slots on from a slot the next of a set is, "1 is the slot after a given one, 64 that slot again": the least of those behind the slot,
// and where there is none, the least of all, once round.
fn slots_to(set: u64, slot: u8) -> u8
    requires { (set ≢ 0) × (slot < 64) }
    ensures { result ≡ first_from 64 1 (λ (k : ℕ). member ((slot + k) % 64) set) }
{
    let behind = (set >> slot) >> 1;
    if is_empty(behind) {
        return least(set) as u8 + (64 - slot);
    }
    least(behind) as u8 + 1
}

pub fn next(
    rows: &Rows,
    aims: &Aims,
    numbers: &Numbers,
    initiator: u8,
    target: u8,
    length: u16,
    slot: u8,
) -> Result<u8, Refusal>
    ensures { TellsNext rows.now aims.now numbers.now initiator target length slot (next_told result) }
{
    let row = own_row(rows, numbers, initiator)?;
    // A target that no entry has is told before its least span is worked out.
    let aimed = aimed_at(aims, row, target);
    if is_empty(aimed) {
        return Err(no_turn(length));
    }
    let need = least_span(numbers, row, target, length);
    let set = lasting(aims, row, aimed, need);
    if is_empty(set) {
        return Err(no_turn(length));
    }
    if 63 < slot {
        return Err(Refusal::SlotOverMost);
    }
    Ok(slots_to(set, slot))
}
