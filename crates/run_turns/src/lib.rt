// One initiator at a time-code: lateness of what is live, and the start of a request that waits.
// Each contract holds for every side that the row is of.
#![tactic(auto)]

ghost use Rattle.std.specs.Prelude.{◌≡◌, false, ◌≤◌, ◌<◌, get_or};
ghost use Rattle.std.proofs.Math.Option.{some};
ghost use Rattle.lists.specs.Options.{as_option};
ghost use Rattle.lists.specs.Search.{is_some};
ghost use Rattle.rules_plan.specs.Plan.{Entry};
ghost use Rattle.rules_box.specs.State.{Side, Live};
ghost use Rattle.rules_box.specs.Turn.{Start, aged, is_late, starting, begun};
ghost use Rattle.rules_box.specs.laws.Fit.{FitSide, FitLive};
ghost use Rattle.memory_plan.specs.View.{Owner, Tells};
ghost use Rattle.memory_run.specs.Run.{row_of, live_time};
ghost use Rattle.memory_run.specs.Row.{IsRow};
ghost use Rattle.run_turns.specs.Turns.{late_of, started_of, StartsAt};

use memory_run::layout::*;
use memory_run::row::finish_row;
use run_line::{find_row, permits_oldest, take_row};

// "out of sequence, every live one; else each one started span accepted time-codes ago": one is left to it, and its time is 256 and its
// span, where two would be 512 and more.
fn is_late(time: u64, in_sequence: bool) -> bool
    ensures le_time { result ≡ false → 512 ≤ time }
    ensures value { (l : Live) → FitLive l → time ≡ live_time (some l) → result ≡ is_late in_sequence l }
{
    !in_sequence || time < 512
}

// Lateness at a time-code: a late transaction ends and is answered as the word of its request; another is one time-code older.
pub fn age_row(row: &mut [u64], in_sequence: bool) -> Option<u64>
    requires { IsRow row.old }
    ensures { (o : Owner) (s : Side) → FitSide s → row.old ≡ row_of o s → (result ≡ as_option (late_of in_sequence o s.live)) × (row.new ≡ row_of o (aged in_sequence s)) }
{
    let word = row[LIVE];
    let time = row[TIME];
    if time == 0 {
        return None;
    }
    if is_late(time, in_sequence) {
        finish_row(row);
        return Some(word);
    }
    row[TIME] = time - 256;
    None
}

// The request at place k leaves the line and is live: answered as its word.
fn begin_at(row: &mut [u64], k: usize, span: u8) -> Option<u64>
    requires { IsRow row.old × (k < 8) × (k < get_or row.old 1 0) }
    ensures { (o : Owner) (s : Side) → FitSide s → row.old ≡ row_of o s → (x : Start) → StartsAt k span s x →
        (result ≡ as_option (started_of o (some x))) × (row.new ≡ row_of o (begun s (some x))) }
{
    let word = row[k + LINE];
    take_row(row, k);
    row[LIVE] = word;
    // All of its span is left to it: span × 256, and the span.
    row[TIME] = 257 * span as u64;
    Some(word)
}

// "the oldest waiting request it permits (target and 256 × span) starts", where nothing is live. Most often that is the oldest of all: tried
// by itself, it leaves the line with no test of its place.
pub fn start_row(row: &mut [u64], targets: u64, span: u8) -> Option<u64>
    requires { IsRow row.old }
    ensures { (o : Owner) (s : Side) → FitSide s → row.old ≡ row_of o s → is_some s.live ≡ false → (e : Entry) → Tells o targets span e →
        (result ≡ as_option (started_of o (starting o.plan (some e) s))) × (row.new ≡ row_of o (begun s (starting o.plan (some e) s))) }
{
    if permits_oldest(row, targets, span) {
        return begin_at(row, 0, span);
    }
    let Some(k) = find_row(row, targets, span) else {
        return None;
    };
    begin_at(row, k, span)
}
