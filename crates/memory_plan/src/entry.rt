// The entry that stands at a slot, and what it permits.
ghost use Rattle.std.specs.Prelude.{◌≡◌, ℕ, ◌+◌, ◌*◌, ◌≤◌, ◌<◌, ◌&&◌, leb};
ghost use Rattle.bitsets.specs.Set.{member};
ghost use Rattle.rules_plan.specs.Plan.{Plan};
ghost use Rattle.lists.specs.Numbers.{first_from};
ghost use Rattle.rules_plan.specs.Meaning.{entry_at};
ghost use Rattle.rules_plan.specs.laws.Sound.{Sound};
ghost use Rattle.memory_plan.specs.Memory.{of_row, span_of, spans_of, aim_of, aims_of};
ghost use Rattle.memory_plan.specs.Spans.{Halved, least_in_words};

use crate::layout::*;

// The span of the entry of a row at a slot, 0 where none stands there.
pub fn span_at(spans: &Spans, row: usize, slot: u8) -> u8
    ensures { (p : Plan) → Sound p → spans.now ≡ spans_of p → result ≡ of_row p row (λ (i : ℕ). span_of (entry_at p.entries i slot)) }
{
    if ROWS <= row || 64 <= slot {
        return 0;
    }
    spans[row * SLOTS + slot as usize]
}

// The set of its targets, empty where none stands there.
// Kept: the new form is no plainer (one generic read of a cell needs a bound for the 0 and a contract of both tellings).
pub fn targets_at(aims: &Aims, row: usize, slot: u8) -> u64
    ensures { (p : Plan) → Sound p → aims.now ≡ aims_of p → result ≡ of_row p row (λ (i : ℕ). aim_of (entry_at p.entries i slot)) }
{
    if ROWS <= row || 64 <= slot {
        return 0;
    }
    aims[row * SLOTS + slot as usize]
}

// The least span of a transaction that fits none.
// Kept: the new form is no plainer (permits, lasting and the line compare a need with spans of 16 at most; an Option would be taken apart at each).
const NO_SPAN: u8 = 17;

// The least span that a transaction with this many data bytes fits in a plan that carries no times: "with 256 × span at least the length".
fn least_by_length(length: u16) -> u8
    requires { length ≤ 4096 }
    ensures { result ≡ first_from 16 1 (λ (k : ℕ). leb length (256 * k)) }
{
    // Length 0 needs a slot too, and has no branch of its own, since what follows would wait for it.
    let empty = length == 0;
    ((length + 255) / 256) as u8 + empty as u8
}

// One step on from k slots where they and the step's are too few, else k: of twice the step, the need is then within the step.
fn past(need: u64, slot: u32, k: u64, step: u64) -> u64
    requires { k + step ≤ 16 }
    ensures { Halved need slot k step result }
{
    let on = k + step;
    if on * (slot as u64) < need { on } else { k }
}

// How many slots the need takes, 17 where 16 are too few: by halves. One slot is asked first, since most entries have no more.
fn least_slots(need: u64, slot: u32) -> u8
    requires { 0 < need }
    ensures { result ≡ first_from 16 1 (λ (k : ℕ). leb need (k * slot)) }
{
    if need <= slot as u64 {
        return 1;
    }
    if 16 * (slot as u64) < need {
        return NO_SPAN;
    }
    let eights = past(need, slot, 0, 8);
    let fours = past(need, slot, eights, 4);
    let twos = past(need, slot, fours, 2);
    let ones = past(need, slot, twos, 1);
    ones as u8 + 1
}

// The bits of the data with its CRC, ten to a byte, and the fixed time, in thousandths of a bit.
fn need_of(length: u16, cost: u32) -> u64
    ensures { result ≡ 10_000 * (length + 1) + cost }
{
    10000 * (length as u64 + 1) + cost as u64
}

// The least span that a transaction of the row's initiator with this many data bytes to the target fits, 17 where it fits none.
pub fn least_span(numbers: &Numbers, row: usize, target: u8, length: u16) -> u8
    requires { (row < 8) × (target < 64) }
    ensures { result ≡ least_in_words numbers.now row target length }
{
    if 4096 < length {
        return NO_SPAN;
    }
    if numbers[RATE] == 0 {
        return least_by_length(length);
    }
    let cost = numbers[COSTS + row * SLOTS + target as usize];
    if cost == 0 {
        return NO_SPAN;
    }
    least_slots(need_of(length, cost), numbers[SLOT])
}

// Whether an entry with these targets and this span permits a transaction to the target that needs so long a span.
pub fn permits(targets: u64, span: u8, target: u8, need: u8) -> bool
    ensures { result ≡ (member target targets && leb need span) }
{
    bitsets::has(targets, target) && need <= span
}
