// The requests in an initiator's line: one joins, the oldest that an entry permits is found, one leaves.
// Each contract holds for every side that the row is of.
#![tactic(auto)]

ghost use Rattle.std.specs.Prelude.{◌≡◌, ◌+◌, ◌%◌, ◌<◌, true, [], ◌∷◌, ◌++◌, length, ◌==◌, slice_index, IfSome};
ghost use Rattle.lists.specs.Options.{if_below};
ghost use Rattle.lists.specs.Place.{first, without};
ghost use Rattle.rules_plan.specs.Plan.{Plan, Entry};
ghost use Rattle.rules_plan.specs.Meaning.{least_span};
ghost use Rattle.rules_box.specs.State.{Side, Request};
ghost use Rattle.rules_box.specs.Turn.{join, allows};
ghost use Rattle.rules_box.specs.laws.Fit.{FitSide, FitRequest};
ghost use Rattle.memory_plan.specs.View.{place_or, Owner, Tells, owner};
ghost use Rattle.memory_run.specs.Run.{row_of, word_of};
ghost use Rattle.memory_run.specs.Row.{IsRow};
ghost use Rattle.run_line.specs.Line.{leaves};

use memory_plan::entry::permits;
use memory_run::layout::*;
use memory_run::word::{need_in, target_in, word_of};

// "after 65,535 comes 0"
fn next_number(number: u16) -> u16
    ensures { result ≡ (number + 1) % 65536 }
{
    std::num::wrapping_add_u16(number, 1)
}

// "Joins its initiator's line and gets that initiator's next 16-bit transaction number": a request that needs so long a span
pub fn join_row(row: &mut [u64], initiator: u8, target: u8, kind: u8, need: u8, length: u16) -> u16
    requires { IsRow row.old × (slice_index row.old 1 < 8) }
    ensures { (p : Plan) (s : Side) → FitSide s → need ≡ least_span p initiator target length → row.old ≡ row_of (owner p initiator) s →
        (result ≡ s.next) × (row.new ≡ row_of (owner p initiator) (join target kind length s)) }
{
    let n = row[WAITING] as usize;
    let number = (row[NEXT] % 65536) as u16;
    row[n + LINE] = word_of(initiator, target, kind, need, length, number);
    row[WAITING] = n as u64 + 1;
    row[NEXT] = next_number(number) as u64;
    number
}

// Whether an entry with these targets and this span permits the request of a word.
fn permits_word(word: u64, targets: u64, span: u8) -> bool
    ensures { (o : Owner) (e : Entry) (r : Request) → Tells o targets span e → FitRequest r → word ≡ word_of o r → result ≡ allows o.plan e r }
{
    permits(targets, span, target_in(word), need_in(word))
}

// Whether a request waits and the entry permits the oldest.
pub fn permits_oldest(row: &[u64], targets: u64, span: u8) -> bool
    requires { IsRow row.now }
    ensures nonzero { result ≡ true → 0 < slice_index row.now 1 }
    ensures value { (o : Owner) (s : Side) → FitSide s → row.now ≡ row_of o s → (e : Entry) → Tells o targets span e → result ≡ (place_or 8 (first (allows o.plan e) s.line) == 0) }
{
    if row[WAITING] == 0 {
        return false;
    }
    permits_word(row[LINE], targets, span)
}

// The place of the oldest waiting request that the entry permits.
pub fn find_row(row: &[u64], targets: u64, span: u8) -> Option<usize>
    requires { IsRow row.now }
    ensures upper_bound { IfSome result (λ k. (k < 8) × (k < slice_index row.now 1)) }
    ensures value { (o : Owner) (s : Side) → FitSide s → row.now ≡ row_of o s → (e : Entry) → Tells o targets span e →
        result ≡ if_below 8 (place_or 8 (first (allows o.plan e) s.line)) }
{
    let waiting = row[WAITING] as usize;
    row[LINE..LIVE]
        .iter()
        .take(waiting)
        .position(|word| permits_word(*word, targets, span))
}

// The eight places once the one at place k has left: those behind move up, and the last is 0. Most often the oldest leaves, and for place 0
// the compiler makes one move of all places, with no test.
fn move_up(places: &mut [u64], k: usize)
    requires { (length places.old ≡ 8) × (k < 8) }
    ensures { places.new ≡ without k places.old ++ 0 ∷ [] }
{
    if k == 0 {
        places.copy_within(1.., 0);
    } else {
        // Kept: no copy from place k on, whose length varies, but a loop over all: with the copy each time-code takes longer (speed).
        for j in 0..LAST_PLACE {
            if k <= j {
                places[j] = places[j + 1];
            }
        }
    }
    places[LAST_PLACE] = 0;
}

// The request at place k leaves the line.
pub fn take_row(row: &mut [u64], k: usize)
    requires { IsRow row.old × (k < 8) × (k < slice_index row.old 1) }
    ensures { (o : Owner) (s : Side) → FitSide s → row.old ≡ row_of o s → row.new ≡ row_of o (leaves k s) }
{
    let n = row[WAITING];
    move_up(&mut row[LINE..LIVE], k);
    row[WAITING] = n - 1;
}
