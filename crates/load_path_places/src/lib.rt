// Where a path goes: the row of its initiator, which is made where it has none, and its place in the order of writing out; and where the path
// of a pair stands.
#![tactic(auto)]

ghost use Rattle.std.specs.Prelude.{◌≡◌, [], ◌∷◌, ℕ, ◌≤◌, ◌<◌, length, IfSome, unwrap_or};
ghost use Rattle.lists.specs.Insert.{put_in};
ghost use Rattle.rules_plan.specs.Plan.{Plan};
ghost use Rattle.rules_plan.specs.laws.Fair.{Fair};
ghost use Rattle.memory_plan.specs.Rows.{row_among};
ghost use Rattle.load_path_places.specs.Places.{row_place, own_row, with_row, with_count, precedes_at, IsPlace, PathAt};
ghost use Rattle.memory_plan.specs.Memory.{paths_of, initiators_in};

use memory_plan::layout::*;

// Where a row for a new initiator goes among the first count rows: behind the last with a smaller one.
fn row_place(rows: &Rows, count: usize, initiator: u8) -> usize
    requires { count ≤ 7 }
    ensures { (result ≤ count) × (result ≡ row_place rows.now count initiator) }
{
    let mut place = 0;
    for k in 0..count {
        if rows[k] < initiator {
            place = k + 1;
        }
    }
    place
}

// Makes a row for a new initiator, at its place among the first count rows, with no path yet; answers the row.
fn insert_row(rows: &mut Rows, reach: &mut Reach, count: usize, initiator: u8) -> usize
    requires { count ≤ 7 }
    ensures { (result ≤ count) × (length rows.old ≡ 8 → length reach.old ≡ 8 →
        (result ≡ row_place rows.old count initiator)
        × (rows.new ≡ put_in result count (initiator ∷ []) rows.old)
        × (reach.new ≡ put_in result count (0 ∷ []) reach.old)) }
{
    let k = row_place(rows, count, initiator);
    rows.copy_within(k..count, k + 1);
    reach.copy_within(k..count, k + 1);
    rows[k] = initiator;
    reach[k] = 0;
    k
}

// The row of the initiator, which is made where the search for it found none.
pub fn own_row(
    rows: &mut Rows,
    reach: &mut Reach,
    numbers: &mut Numbers,
    row: usize,
    initiator: u8,
) -> usize
    requires { (row ≡ row_among rows.old (initiators_in numbers.old) initiator) × (row < 8) }
    ensures { (result < 8)
        × (numbers.new ≡ with_count rows.old numbers.old initiator)
        × (length rows.old ≡ 8 → length reach.old ≡ 8 →
        (result ≡ own_row rows.old (initiators_in numbers.old) initiator)
        × (rows.new ≡ with_row rows.old (initiators_in numbers.old) initiator initiator rows.old)
        × (reach.new ≡ with_row rows.old (initiators_in numbers.old) initiator 0 reach.old)) }
{
    let count = numbers[INITIATORS];
    if row as u32 != count {
        return row;
    }
    numbers[INITIATORS] = count + 1;
    insert_row(rows, reach, row, initiator)
}

// Whether a path from initiator to target stands before path k in the order of writing out.
#[tactic(auto, unfolding(crate::specs::Places::precedes))]
fn stands_before(paths: &Paths, k: usize, initiator: u8, target: u8) -> bool
    requires { k < 128 }
    ensures { result ≡ precedes_at paths.now initiator target k }
{
    let i = paths[k * PATH];
    initiator < i || initiator == i && target < paths[k * PATH + PATH_TARGET]
}

// How many of the first count paths, which stand in order, stand before a path from initiator to target. The last is tried first, so that a
// file that gives its paths in order needs no search.
// Kept: the new form is no plainer (std's binary searches go over the elements of a slice, and a path is a row of eleven bytes).
pub fn place_of(paths: &Paths, count: usize, initiator: u8, target: u8) -> usize
    requires { count ≤ 128 }
    ensures { (result ≤ count) × ((m : ℕ) → IsPlace paths.now count initiator target m → result ≡ m) }
{
    if count == 0 {
        return 0;
    }
    let mut low = 0;
    let mut high = count - 1;
    if !stands_before(paths, high, initiator, target) {
        return count;
    }
    while low < high {
        let middle = (low + high) / 2;
        if stands_before(paths, middle, initiator, target) {
            high = middle;
        } else {
            low = middle + 1;
        }
    }
    low
}

// The place of the path from initiator to target among the first count paths, which stand in order.
pub fn path_of(paths: &Paths, count: usize, initiator: u8, target: u8) -> Option<usize>
    requires { count ≤ 128 }
    ensures { (IfSome result (λ k. k < 128)) × ((p : Plan) → Fair p → paths.now ≡ paths_of p → count ≡ length p.paths → PathAt p initiator target (unwrap_or result 128)) }
{
    let past = place_of(paths, count, initiator, target);
    if past == 0 {
        return None;
    }
    let k = past - 1;
    if paths[k * PATH] != initiator || paths[k * PATH + PATH_TARGET] != target {
        return None;
    }
    Some(k)
}
