// Records, put into a lent buffer one behind the other. Nothing is stored beyond its end.
#![tactic(auto)]

ghost use Rattle.std.specs.Prelude.{◌≡◌, ◌+◌, ◌<◌, ◌≤◌, true, length};
ghost use mathlib.Core.List.{flat_map};
ghost use Rattle.lists.specs.Stores.{Put};
ghost use Rattle.lists.specs.Puts.{Puts};
ghost use Rattle.memory_plan.specs.View.{Owner};
ghost use Rattle.rules_box.specs.State.{Request};
ghost use Rattle.rules_box.specs.Refuse.{record_size};
ghost use Rattle.rules_box.specs.Records.{record_bytes, plain, full, watchdog_record, sequence_record};
ghost use Rattle.rules_box.specs.laws.Fit.{FitRequest};
ghost use Rattle.memory_run.specs.Run.{word_of};
ghost use Rattle.run_records.specs.Bytes.{bytes_of, filled};

use bytes_put::{put, put_bytes};
use rules_box::Watchdog;
use run_watchdog::watch::{is_early, is_overdue};

// "Each record has 8 bytes"; "At most 17".
pub const RECORD_SIZE: usize = 8;

pub const RECORD_ROOM: usize = 136;

// "kinds 1 to 3 fill kind and v, the rest 0"
fn put_plain(out: &mut [u8], at: usize, kind: u8, v: u8, clock: u32) -> usize
    ensures { Puts out.old at (record_bytes clock (plain kind v)) out.new result }
{
    let bytes = [kind, 0, 0, v, 0, 0, 0, 0];
    put(out, at, &bytes)
}

// The eight bytes of a word, the lowest first: one store for the compiler.
fn put_eight(out: &mut [u8], at: usize, word: u64) -> usize
    requires { at + 8 ≤ length out.old }
    ensures { Put out.old at (bytes_of word) out.new result }
{
    put_bytes(out, at, &word.to_le_bytes())
}

// "kinds 4 to 6 fill all": of the request of a word. The word has the record's bytes; its own kind and its least span make room for the
// record's kind and v. What is put of a word that is of no request is said by its bytes.
pub fn put_full(out: &mut [u8], at: usize, kind: u8, v: u8, word: u64, clock: u32) -> usize
    requires { at + record_size ≤ length out.old }
    ensures { ((o : Owner) (x : Request) → o.initiator < 256 → FitRequest x → word ≡ word_of o x → Puts out.old at (record_bytes clock (full kind o.initiator v x)) out.new result)
        × (result ≡ at + record_size) × Put out.old at (bytes_of (filled kind v word)) out.new result }
{
    let bare = word - word / 128 % 2 * 128 - word / 16_777_216 % 256 * 16_777_216;
    let head = kind as u64 + v as u64 * 16_777_216;
    put_eight(out, at, std::num::wrapping_add_u64(bare, head))
}

// 1. "watchdog: kind 1 early …, else kind 2 late"
pub fn put_watchdog_record(out: &mut [u8], at: usize, w: Watchdog, clock: u32, v: u8) -> usize
    ensures { Puts out.old at (flat_map (record_bytes clock) (watchdog_record w clock v)) out.new result × (at + record_size ≤ length out.old → result ≤ at + record_size) }
{
    if is_early(w, clock) {
        return put_plain(out, at, 1, v, clock);
    }
    if is_overdue(w, clock) {
        return put_plain(out, at, 2, v, clock);
    }
    at
}

// 2. "kind 3 if out of sequence"
pub fn put_sequence_record(out: &mut [u8], at: usize, in_sequence: bool, v: u8, clock: u32) -> usize
    ensures { Puts out.old at (flat_map (record_bytes clock) (sequence_record in_sequence v)) out.new result
        × (at + record_size ≤ length out.old → result ≤ at + record_size) × (in_sequence ≡ true → result ≡ at) }
{
    if in_sequence {
        return at;
    }
    put_plain(out, at, 3, v, clock)
}
