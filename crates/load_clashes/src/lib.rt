// Verdict 14: two initiators clash. The sets of links that the initiators may use in a slot are compared.
#![tactic(auto)]

ghost use Rattle.std.specs.Prelude.{◌≡◌, ℕ, ◌+◌, ◌-◌, ◌<◌};
ghost use Rattle.std.proofs.Math.Option.{none};
ghost use Rattle.lists.specs.Numbers.{first_from};
ghost use Rattle.lists.specs.Options.{as_option, if_below};
ghost use Rattle.rules_plan.specs.Plan.{Plan};
ghost use Rattle.rules_plan.specs.Judge.{overrun, clash_in, clash};
ghost use Rattle.rules_plan.specs.laws.Fair.{Fair};
ghost use Rattle.memory_plan.specs.Memory.{rows_of, paths_of, spans_of, aims_of, numbers_with};
ghost use Rattle.load_slot_links.specs.Lanes.{Searched};
ghost use Rattle.load_clashes.specs.Clashes.{meets, least_common};

use load_slot_links::lanes_in;
use memory_plan::layout::*;
use rules_plan::Verdict;

// The first row after row i whose set has a link of row i's.
fn meets_after(lanes: &[u64; 8], i: usize) -> Option<usize>
    requires { i < 8 }
    ensures { result ≡ if_below 8 (first_from (7 - i) (i + 1) (meets lanes.now i)) }
{
    for j in i + 1..ROWS {
        if !bitsets::disjoint(lanes[i], lanes[j]) {
            return Some(j);
        }
    }
    None
}

// The least link in both sets; 64 for none.
// Kept: the new form is no plainer (it is asked only of sets that meet, and the set's own least is a number).
fn least_common(a: u64, b: u64) -> u8
    ensures { result ≡ least_common a b }
{
    bitsets::least(bitsets::both(a, b)) as u8
}

// The least clash in the slot. (Initiators rise with their rows.)
fn clash_in(
    rows: &Rows,
    paths: &Paths,
    spans: &Spans,
    aims: &Aims,
    numbers: &Numbers,
    slot: usize,
) -> Option<Verdict>
    requires { slot < 64 }
    ensures { (p : Plan) → Searched p rows.now paths.now spans.now aims.now numbers.now →
        result ≡ as_option (clash_in p p.entries slot) }
{
    let lanes = lanes_in(rows, paths, spans, aims, numbers, slot);
    for i in 0..ROWS {
        if let Some(j) = meets_after(&lanes, i) {
            return Some(Verdict::Clash {
                slot: slot as u8,
                smaller: rows[i],
                greater: rows[j],
                link: least_common(lanes[i], lanes[j]),
            });
        }
    }
    None
}

// "least slot, then least smaller initiator, least greater initiator, least link". Verdict 13 does not hold.
pub fn find_clash(
    rows: &Rows,
    paths: &Paths,
    spans: &Spans,
    aims: &Aims,
    numbers: &Numbers,
) -> Option<Verdict>
    ensures { (size : ℕ) (p : Plan) → Fair p → overrun p.entries ≡ none → rows.now ≡ rows_of p → paths.now ≡ paths_of p →
        spans.now ≡ spans_of p → aims.now ≡ aims_of p → numbers.now ≡ numbers_with size p →
        result ≡ as_option (clash p p.entries) }
{
    for slot in 0..64 {
        if let Some(verdict) = clash_in(rows, paths, spans, aims, numbers, slot) {
            return Some(verdict);
        }
    }
    None
}
