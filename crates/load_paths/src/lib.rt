// A path: what is asked of memory before it is judged; and, without a fault, put at its place in the order of writing out.
#![tactic(auto)]

ghost use Rattle.std.specs.Prelude.{◌≡◌, false, ◌||◌, ℕ, ◌≤◌, ◌<◌, length, leb};
ghost use Rattle.std.proofs.Math.Seq.{paste};
ghost use Rattle.lists.specs.Insert.{moved};
ghost use Rattle.bitsets.specs.Set.{member};
ghost use Rattle.rules_plan.specs.Plan.{nth};
ghost use Rattle.memory_plan.specs.Memory.{path_row, initiators_in, paths_in};
ghost use Rattle.load_path_faults.specs.Routes.{route};
ghost use Rattle.load_paths.specs.Keep.{PathAsked, kept_reach, kept_paths, kept_numbers};
ghost use Rattle.memory_plan.specs.Rows.{row_among};
ghost use Rattle.load_path_places.specs.Places.{with_row, IsPlace};

use load_path_faults::Asked;
use load_path_places::{own_row, place_of};
use memory_plan::layout::*;
use memory_plan::rows::row_among;

// Moves the bytes from start to end on by those of one path.
fn make_room(paths: &mut Paths, start: usize, end: usize)
    requires { (start ≤ end) × (end ≤ 1397) }
    ensures { length paths.old ≡ 2816 → paths.new ≡ moved 11 start end paths.old }
{
    paths.copy_within(start..end, start + PATH);
}

// Stores the row of a path, or of a reply, at a place: its initiator and its target first.
pub fn store_path(paths: &mut Paths, at: usize, initiator: u8, target: u8, links: &[u8])
    requires { (at ≤ 2805) × (length links.now ≤ 8) }
    ensures { length paths.old ≡ 2816 →
        paths.new ≡ paste paths.old at (path_row (route initiator target links.now)) 11 }
{
    let n = links.len();
    paths[at] = initiator;
    paths[at + PATH_TARGET] = target;
    paths[at + PATH_COUNT] = n as u8;
    // Kept: no copy of a slice, of which the compiler makes a call of memmove: the archive calls nothing of the C library but memset, and eight
    // stores are faster.
    for k in 0..MOST_LINKS {
        if k < n {
            paths[at + PATH_LINKS + k] = links[k];
        } else {
            paths[at + PATH_LINKS + k] = 0;
        }
    }
}

// Keeps a path that has no fault: no entry, no times and no reply are there yet.
pub fn keep_path(
    rows: &mut Rows,
    reach: &mut Reach,
    paths: &mut Paths,
    numbers: &mut Numbers,
    row: usize,
    initiator: u8,
    target: u8,
    links: &[u8],
)
    requires { (row ≡ row_among rows.old (initiators_in numbers.old) initiator) × (row < 8) × (paths_in numbers.old < 128) × (length links.now ≤ 8) }
    ensures { length rows.old ≡ 8 → length reach.old ≡ 8 → length paths.old ≡ 2816 →
        (rows.new ≡ with_row rows.old (initiators_in numbers.old) initiator initiator rows.old)
        × (reach.new ≡ kept_reach rows.old reach.old (initiators_in numbers.old) (route initiator target links.now))
        × ((m : ℕ) → IsPlace paths.old (paths_in numbers.old) initiator target m →
        paths.new ≡ kept_paths paths.old (paths_in numbers.old) m (route initiator target links.now))
        × (numbers.new ≡ kept_numbers rows.old numbers.old initiator) }
{
    let row = own_row(rows, reach, numbers, row, initiator);
    reach[row] = bitsets::add(reach[row], target);
    let count = numbers[PATHS];
    let n = count as usize;
    let k = place_of(paths, n, initiator, target);
    make_room(paths, k * PATH, n * PATH);
    store_path(paths, k * PATH, initiator, target, links);
    numbers[PATHS] = count + 1;
}

// Whether the row reaches the target: there is a path of that pair. Beyond the eighth there is no row.
fn reaches(reach: &Reach, row: usize, target: u8) -> bool
    ensures { (8 ≤ row → result ≡ false) × (row < 8 → result ≡ member target (nth reach.now row)) }
{
    row < ROWS && bitsets::has(reach[row], target)
}

// Whether one path more is too many: its initiator would be the ninth, or itself the 129th.
fn too_many(numbers: &Numbers, row: usize) -> bool
    ensures { result ≡ (leb 8 row || leb 128 (paths_in numbers.now)) }
{
    ROWS <= row || MOST_PATHS as u32 <= numbers[PATHS]
}

// What rows 7, 9 and 11 ask of a path, from initiator to target; its place is the row of its initiator.
pub fn path_asked(rows: &Rows, reach: &Reach, numbers: &Numbers, initiator: u8, target: u8) -> Asked
    ensures { PathAsked rows.now reach.now numbers.now initiator target result.start result.end result.place result.again result.many result.alone }
{
    let row = row_among(rows, numbers[INITIATORS], initiator);
    Asked {
        start: initiator,
        end: target,
        place: row,
        again: reaches(reach, row, target),
        many: too_many(numbers, row),
        alone: false,
    }
}
