// 4. "only in sequence … where an entry stands at v": kind 5 for a start, kind 6 where the initiator is still live, initiators rising.
ghost use Rattle.std.specs.Prelude.{◌≡◌, ℕ, ◌+◌, ◌*◌, ◌≤◌, ◌<◌, length};
ghost use mathlib.Core.List.{flat_map, ◌++◌};
ghost use Rattle.std.proofs.Math.Option.{some};
ghost use Rattle.lists.specs.Puts.{Puts};
ghost use Rattle.rules_plan.specs.Plan.{Plan, Entry};
ghost use Rattle.rules_plan.specs.Meaning.{initiators, entry_at};
ghost use Rattle.rules_plan.specs.laws.Sound.{Sound};
ghost use Rattle.memory_plan.specs.Memory.{spans_of, aims_of};
ghost use Rattle.memory_plan.specs.View.{Owner, Tells};
ghost use Rattle.rules_box.specs.State.{Side};
ghost use Rattle.rules_box.specs.Refuse.{record_size};
ghost use Rattle.rules_box.specs.Turn.{starting, begun};
ghost use Rattle.rules_box.specs.Records.{record_bytes, start_record, still_record};
ghost use Rattle.rules_box.specs.laws.Fit.{FitSide};
ghost use Rattle.memory_run.specs.Run.{row_of, run_of};
ghost use Rattle.memory_run.specs.Row.{IsRow, IsRun};

use memory_plan::entry::{span_at, targets_at};
use memory_plan::layout::*;
use memory_run::layout::*;
use memory_run::row::{has_live, live_word};
use run_records::put_full;
use run_turns::start_row;

// The visit of one initiator's entry, which has these targets and this span.
fn visit_row(
    row: &mut [u64],
    out: &mut [u8],
    at: usize,
    v: u8,
    clock: u32,
    targets: u64,
    span: u8,
) -> usize
    requires { IsRow row.old × (at + record_size ≤ length out.old) }
    ensures { ((o : Owner) (s : Side) → o.initiator < 256 → FitSide s → row.old ≡ row_of o s → (e : Entry) → Tells o targets span e →
        (row.new ≡ row_of o (begun s (starting o.plan (some e) s)))
        × Puts out.old at (flat_map (record_bytes clock)
        (start_record o.initiator v (starting o.plan (some e) s) ++ still_record (some e) o.initiator v s.live)) out.new result) × (result ≤ at + record_size) }
{
    if has_live(row) {
        let live = live_word(row);
        return put_full(out, at, 6, v, live, clock);
    }
    match start_row(row, targets, span) {
        Some(word) => put_full(out, at, 5, v, word, clock),
        None => at,
    }
}

// The visit of every entry that stands at v. Rows behind the initiators have no entry.
pub fn visit_all(
    spans: &Spans,
    aims: &Aims,
    run: &mut [u64],
    out: &mut [u8],
    at: usize,
    v: u8,
    clock: u32,
) -> usize
    requires { IsRun run.old × (at + 8 * record_size ≤ length out.old) }
    ensures { (p : Plan) (side : ℕ → Side) → Sound p → spans.now ≡ spans_of p → aims.now ≡ aims_of p →
        ((i : ℕ) → FitSide (side i)) → run.old ≡ run_of p side →
        (run.new ≡ run_of p (λ (i : ℕ). begun (side i) (starting p (entry_at p.entries i v) (side i))))
        × Puts out.old at (flat_map (record_bytes clock) (flat_map (λ (i : ℕ).
        start_record i v (starting p (entry_at p.entries i v) (side i)) ++ still_record (entry_at p.entries i v) i v (side i).live) (initiators p))) out.new result }
{
    let mut k = at;
    for row in 0..ROWS {
        let span = span_at(spans, row, v);
        if span != 0 {
            let targets = targets_at(aims, row, v);
            k = visit_row(
                &mut run[row * ROW..row * ROW + ROW],
                out,
                k,
                v,
                clock,
                targets,
                span,
            );
        }
    }
    k
}
