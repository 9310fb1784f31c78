// 3. "kind 4 for each late transaction", initiators rising.
ghost use Rattle.std.specs.Prelude.{◌≡◌, ℕ, ◌+◌, ◌*◌, ◌≤◌, ◌<◌, length};
ghost use mathlib.Core.List.{flat_map};
ghost use Rattle.lists.specs.Puts.{Puts};
ghost use Rattle.rules_plan.specs.Plan.{Plan};
ghost use Rattle.rules_plan.specs.Meaning.{initiators};
ghost use Rattle.rules_plan.specs.laws.Sound.{Sound};
ghost use Rattle.memory_plan.specs.View.{Owner};
ghost use Rattle.rules_box.specs.State.{Side};
ghost use Rattle.rules_box.specs.Refuse.{record_size};
ghost use Rattle.rules_box.specs.Turn.{aged};
ghost use Rattle.rules_box.specs.Records.{record_bytes, late_record};
ghost use Rattle.rules_box.specs.laws.Fit.{FitSide};
ghost use Rattle.memory_run.specs.Run.{row_of, run_of};
ghost use Rattle.memory_run.specs.Row.{IsRow, IsRun};

use memory_plan::layout::*;
use memory_run::layout::*;
use run_records::put_full;
use run_turns::age_row;

// Lateness of one initiator.
fn late_row(
    row: &mut [u64],
    out: &mut [u8],
    at: usize,
    v: u8,
    clock: u32,
    in_sequence: bool,
) -> usize
    requires { IsRow row.old × (at + record_size ≤ length out.old) }
    ensures { ((o : Owner) (s : Side) → o.initiator < 256 → FitSide s → row.old ≡ row_of o s →
        (row.new ≡ row_of o (aged in_sequence s))
        × Puts out.old at (flat_map (record_bytes clock) (late_record in_sequence o.initiator v s.live)) out.new result) × (result ≤ at + record_size) }
{
    match age_row(row, in_sequence) {
        Some(word) => put_full(out, at, 4, v, word, clock),
        None => at,
    }
}

// Lateness of every initiator. Rows behind the initiators have nothing live.
pub fn report_late(
    run: &mut [u64],
    out: &mut [u8],
    at: usize,
    v: u8,
    clock: u32,
    in_sequence: bool,
) -> usize
    requires { IsRun run.old × (at + 8 * record_size ≤ length out.old) }
    ensures { ((p : Plan) (side : ℕ → Side) → Sound p → ((i : ℕ) → FitSide (side i)) → run.old ≡ run_of p side →
        (run.new ≡ run_of p (λ (i : ℕ). aged in_sequence (side i)))
        × Puts out.old at (flat_map (record_bytes clock) (flat_map (λ (i : ℕ). late_record in_sequence i v (side i).live) (initiators p))) out.new result)
        × (result ≤ at + 8 * record_size) }
{
    let mut k = at;
    for row in 0..ROWS {
        k = late_row(
            &mut run[row * ROW..row * ROW + ROW],
            out,
            k,
            v,
            clock,
            in_sequence,
        );
    }
    k
}
