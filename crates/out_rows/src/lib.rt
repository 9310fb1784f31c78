// Paths, replies and entries in memory as fields of a file again, row by row and cell by cell, in a lent buffer.
// No function here stores a byte that has no room, whatever the memory holds.
#![tactic(auto)]

ghost use Rattle.std.specs.Prelude.{◌≡◌, true, ℕ, ◌+◌, ◌%◌, ◌≤◌, ◌<◌, length};
ghost use mathlib.Core.List.{flat_map};
ghost use Rattle.lists.specs.Search.{up_from};
ghost use Rattle.lists.specs.Stores.{Put};
ghost use Rattle.lists.specs.Puts.{Puts};
ghost use Rattle.rules_plan.specs.Plan.{nth};
ghost use Rattle.out_rows.specs.Out.{links_from, path_bytes, row_bytes, rises, entry_bytes, eight_bytes};

use bitsets::{least, size, without_least};
use bytes_get::wide;
use bytes_put::put_bytes;
use memory_plan::layout::*;

// The links from a place of memory on, count of them.
// Kept: no copy of a slice, but a loop that says that they are at most eight: the compiler then makes no loop for long copies (speed).
fn put_path_links(out: &mut [u8], at: usize, paths: &Paths, start: usize, count: usize) -> usize
    requires { (count ≤ 8) × (start + count ≤ 2816) × (at + count ≤ length out.old) }
    ensures { Put out.old at (links_from paths.now start count) out.new result }
{
    for i in 0..MOST_LINKS {
        if count <= i {
            return at + count;
        }
        out[at + i] = paths[start + i];
    }
    at + count
}

// The route of row n under a tag, where it has one to eight links: in no row of a plan are there more, and a row without is of no reply.
fn put_path(out: &mut [u8], at: usize, paths: &Paths, tag: u8, n: usize) -> usize
    requires { n < 256 }
    ensures { Puts out.old at (path_bytes tag paths.now n) out.new result }
{
    let row = PATH * n;
    let count = wide(paths[row + PATH_COUNT]);
    if count == 0 || MOST_LINKS < count {
        return at;
    }
    let whole = 5 + count;
    let room = out.len();
    if room < whole || room - whole < at {
        return at;
    }
    // At most ten bytes: their number has no high byte.
    let initiator = paths[row];
    let target = paths[row + PATH_TARGET];
    let start = [tag, 0, 2 + count as u8, initiator, target];
    let k = put_bytes(out, at, &start);
    put_path_links(out, k, paths, row + PATH_LINKS, count)
}

// The routes of so many rows from the first on, row by row.
pub fn put_paths(
    out: &mut [u8],
    at: usize,
    paths: &Paths,
    tag: u8,
    first: usize,
    rows: usize,
) -> usize
    requires { first + rows ≤ 256 }
    ensures { Puts out.old at (flat_map (row_bytes tag paths.now first) (up_from rows 0)) out.new result }
{
    let mut k = at;
    for n in 0..rows {
        k = put_path(out, k, paths, tag, first + n);
    }
    k
}

// The members of a set, rising, where they have room.
fn put_members(out: &mut [u8], at: usize, set: u64) -> usize
    requires { at + length (rises set) ≤ length out.old }
    ensures { Put out.old at (rises set) out.new result }
{
    let mut k = at;
    let mut rest = set;
    while rest != 0 {
        let target = least(rest) as u8;
        out[k] = target;
        k += 1;
        rest = without_least(rest);
    }
    k
}

// The entry of cell n, where it has a span.
fn put_entry(out: &mut [u8], at: usize, rows: &Rows, spans: &Spans, aims: &Aims, n: usize) -> usize
    requires { n < 512 }
    ensures { Puts out.old at (entry_bytes rows.now spans.now aims.now n) out.new result }
{
    let span = spans[n];
    if span == 0 {
        return at;
    }
    let aim = aims[n];
    let members = size(aim);
    let whole = 6 + members as usize;
    let room = out.len();
    if room < whole || room - whole < at {
        return at;
    }
    // At most 67 bytes: their number has no high byte.
    let size = 3 + members as u8;
    let initiator = rows[n / SLOTS];
    let slot = (n % SLOTS) as u8;
    let start = [4, 0, size, initiator, slot, span];
    let k = put_bytes(out, at, &start);
    put_members(out, k, aim)
}

// Whether the eight cells from n on have no span. Joined into a word, their bytes are read at once.
fn no_span(spans: &Spans, n: usize) -> bool
    requires { n + 8 ≤ 512 }
    ensures { result ≡ true → (s : ℕ) → s < 8 → nth spans.now (n + s) ≡ 0 }
{
    let mut word: u64 = 0;
    for j in 0..8 {
        word |= (wide(spans[n + j]) as u64) << (8 * j);
    }
    word == 0
}

// The entries of the eight cells from n on.
fn put_eight(out: &mut [u8], at: usize, rows: &Rows, spans: &Spans, aims: &Aims, n: usize) -> usize
    requires { n + 8 ≤ 512 }
    ensures { Puts out.old at (eight_bytes rows.now spans.now aims.now n) out.new result }
{
    if no_span(spans, n) {
        return at;
    }
    let mut k = at;
    for j in n..n + 8 {
        k = put_entry(out, k, rows, spans, aims, j);
    }
    k
}

// The entries of the first cells, in their order: by initiator, then by slot.
pub fn put_entries(
    out: &mut [u8],
    at: usize,
    rows: &Rows,
    spans: &Spans,
    aims: &Aims,
    cells: usize,
) -> usize
    requires { (cells ≤ 512) × (cells % 8 ≡ 0) }
    ensures { Puts out.old at (flat_map (entry_bytes rows.now spans.now aims.now) (up_from cells 0)) out.new result }
{
    let mut k = at;
    for eight in 0..cells / 8 {
        k = put_eight(out, k, rows, spans, aims, 8 * eight);
    }
    k
}
