// Verdict 13: "an entry covers, after its own slot, the slot of another entry of the same initiator".
#![tactic(auto)]

ghost use Rattle.std.specs.Prelude.{◌≡◌, ℕ, ◌<◌};
ghost use Rattle.lists.specs.Numbers.{first_from};
ghost use Rattle.lists.specs.Options.{as_option, if_below};
ghost use Rattle.rules_plan.specs.Plan.{Plan};
ghost use Rattle.rules_plan.specs.Judge.{overrun};
ghost use Rattle.rules_plan.specs.laws.Fair.{Fair};
ghost use Rattle.memory_plan.specs.Memory.{rows_of, spans_of, numbers_with};
ghost use Rattle.load_overruns.specs.Overruns.{runs_on, runs_at};

use memory_plan::at_most;
use memory_plan::layout::*;
use rules_plan::Verdict;

// Whether another entry of the row stands in one of the span - 1 slots after the slot.
fn runs_on(spans: &Spans, row: usize, slot: usize, span: u8) -> bool
    requires { (row < 8) × (slot < 64) }
    ensures { result ≡ runs_on spans.now row slot span }
{
    for k in 1..span as usize {
        let at = row * SLOTS + (slot + k) % 64;
        if spans[at] != 0 {
            return true;
        }
    }
    false
}

// The first slot of the row whose entry runs into another.
fn overrun_of(spans: &Spans, row: usize) -> Option<u8>
    requires { row < 8 }
    ensures { result ≡ if_below 64 (first_from 64 0 (runs_at spans.now row)) }
{
    for slot in 0..64 {
        let at = slot as usize;
        if runs_on(spans, row, at, spans[row * SLOTS + at]) {
            return Some(slot);
        }
    }
    None
}

// "the entry with least initiator, then least slot"
pub fn find_overrun(rows: &Rows, spans: &Spans, numbers: &Numbers) -> Option<Verdict>
    ensures { (size : ℕ) (p : Plan) → Fair p → rows.now ≡ rows_of p → spans.now ≡ spans_of p → numbers.now ≡ numbers_with size p →
        result ≡ as_option (overrun p.entries) }
{
    for row in 0..at_most(numbers[INITIATORS], ROWS) {
        if let Some(slot) = overrun_of(spans, row) {
            return Some(Verdict::Overrun {
                initiator: rows[row],
                slot,
            });
        }
    }
    None
}
