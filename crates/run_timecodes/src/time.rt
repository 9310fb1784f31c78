// A time-code: the sequence rule, then the records in order, then the five numbers.
ghost use Rattle.std.specs.Prelude.{◌≡◌, ℕ, ◌*◌, ◌≤◌, length};
ghost use mathlib.Core.List.{List, [], ◌∷◌, flat_map};
ghost use Rattle.rules_box.specs.declared.Event.TheVariants.{TimeCode};
ghost use Rattle.lists.specs.Puts.{Puts};
ghost use Rattle.rules_box.specs.Answer.{recorded_told};
ghost use Rattle.rules_box.specs.State.{Box, the_plan};
ghost use Rattle.rules_box.specs.Refuse.{record_size, most_records};
ghost use Rattle.rules_box.specs.Records as rules-records;
ghost use Rattle.rules_box.specs.Records.{record_bytes};
ghost use Rattle.rules_box.specs.Step as rules;
ghost use Rattle.rules_box.specs.Step.{ticked};
ghost use Rattle.memory_run.specs.Run.{run_of};
ghost use Rattle.memory_run.specs.Memory.{Finds, Does};

use crate::late::report_late;
use crate::sequence::{in_sequence, refuse};
use crate::visits::visit_all;
use memory_plan::layout::*;
use memory_run::layout::*;
use rules_box::Watchdog;
use rules_plan::Refusal;
use run_records::{RECORD_SIZE, put_sequence_record, put_watchdog_record};
use run_watchdog::watch::fed_with;

// The records of an accepted time-code, and run memory after it. Answers where the records end. They are at most 17: in sequence one, and two for
// each of eight initiators; out of it two, and one for each.
fn run_on(
    spans: &Spans,
    aims: &Aims,
    run: &mut Run,
    last: u8,
    w: Watchdog,
    byte: u8,
    clock: u32,
    records: &mut [u8],
) -> usize
    requires { most_records * record_size ≤ length records.old }
    ensures { (b : Box) (rows numbers : List ℕ) → Finds b rows spans.now aims.now numbers run.old (last ∷ []) →
        (run.new ≡ run_of (the_plan b) (ticked b byte).side)
        × Puts records.old 0 (flat_map (record_bytes clock) (rules-records.records b w byte clock)) records.new result }
{
    let v = byte % 64;
    let q = in_sequence(last, byte);
    let watched = put_watchdog_record(records, 0, w, clock, v);
    let sequenced = put_sequence_record(records, watched, q, v, clock);
    let late = report_late(run, records, sequenced, v, clock, q);
    if q {
        return visit_all(spans, aims, run, records, late, v, clock);
    }
    late
}

// An accepted time-code answers the record count, and feeds the watchdog; a refused one leaves all as it finds it.
pub fn time_code(
    spans: &Spans,
    aims: &Aims,
    numbers: &Numbers,
    run: &mut Run,
    last: &mut Last,
    w: &mut Watchdog,
    byte: u8,
    clock: u32,
    records: &mut [u8],
) -> Result<u8, Refusal>
    ensures { (b : Box) (rows : List ℕ) → Finds b rows spans.now aims.now numbers.now run.old last.old →
        Does (rules.step (length records.old) b w.old (TimeCode byte clock)) clock (recorded_told result) w.new run.new last.new records.old records.new }
{
    refuse(numbers, byte, records.len())?;
    let end = run_on(spans, aims, run, last[0], *w, byte, clock, records);
    last[0] = byte + 1;
    *w = fed_with(*w, clock);
    Ok((end / RECORD_SIZE % 256) as u8)
}
