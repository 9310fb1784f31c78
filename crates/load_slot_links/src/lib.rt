// The links that each initiator may use in a slot, worked out as sets.
#![tactic(auto)]

ghost use Rattle.std.specs.Prelude.{◌≡◌, ◌||◌, ℕ, ◌<◌, min, length};
ghost use Rattle.lists.specs.Numbers.{any_below};
ghost use Rattle.lists.specs.Options.{if_below};
ghost use Rattle.bitsets.specs.Set.{member, listed};
ghost use Rattle.rules_plan.specs.Plan.{Plan};
ghost use Rattle.load_slot_links.specs.Lanes.{cover_place, links_at, leads_over, lane_of, lanes_of, Searched};

use memory_plan::at_most;
use memory_plan::layout::*;

// Where the entry of the row stands that covers the slot: 64 × row + its slot.
fn covering(spans: &Spans, row: usize, slot: usize) -> Option<usize>
    requires { (row < 8) × (slot < 64) }
    ensures { result ≡ if_below 512 (cover_place spans.now row slot) }
{
    for back in 0..16 {
        let at = row * SLOTS + (slot + 64 - back as usize) % 64;
        if back < spans[at] {
            return Some(at);
        }
    }
    None
}

// The links of row number k: of a path, or of its reply.
fn path_links(paths: &[u8], k: usize) -> u64
    requires { (k < 256) × (length paths.now ≡ 2816) }
    ensures { (l : ℕ) → member l result ≡ listed (links_at paths.now k) l }
{
    let start = k * PATH + PATH_LINKS;
    let end = start + at_most(paths[k * PATH + PATH_COUNT] as u32, 8);
    bitsets::set_of(&paths[start..end])
}

// The links, with those of path number k, and of its reply's own way, if it leads from the initiator to one of the targets.
fn with_path(paths: &Paths, initiator: u8, targets: u64, links: u64, k: usize) -> u64
    requires { k < 128 }
    ensures { (l : ℕ) → member l result ≡ (member l links || leads_over paths.now initiator targets l k) }
{
    if paths[k * PATH] != initiator || !bitsets::has(targets, paths[k * PATH + PATH_TARGET]) {
        return links;
    }
    let ways = bitsets::union(path_links(paths, k), path_links(paths, REPLIES + k));
    bitsets::union(links, ways)
}

// The links that transactions of the initiator with one of the targets use.
fn links_to(paths: &Paths, count: u32, initiator: u8, targets: u64) -> u64
    ensures { (l : ℕ) → member l result ≡ any_below (min 128 count) (leads_over paths.now initiator targets l) }
{
    let mut links = 0;
    for k in 0..at_most(count, MOST_PATHS) {
        links = with_path(paths, initiator, targets, links, k);
    }
    links
}

// The links that the initiator of the row may use in the slot; none where the row has no initiator.
fn links_in(
    rows: &Rows,
    paths: &Paths,
    spans: &Spans,
    aims: &Aims,
    numbers: &Numbers,
    row: usize,
    slot: usize,
) -> u64
    requires { (row < 8) × (slot < 64) }
    ensures { (p : Plan) → Searched p rows.now paths.now spans.now aims.now numbers.now →
        result ≡ lane_of p slot row }
{
    let Some(at) = covering(spans, row, slot) else {
        return 0;
    };
    links_to(paths, numbers[PATHS], rows[row], aims[at])
}

// The same of each row, at its place.
pub fn lanes_in(
    rows: &Rows,
    paths: &Paths,
    spans: &Spans,
    aims: &Aims,
    numbers: &Numbers,
    slot: usize,
) -> [u64; 8]
    requires { slot < 64 }
    ensures { (p : Plan) → Searched p rows.now paths.now spans.now aims.now numbers.now →
        result ≡ lanes_of p slot }
{
    let mut lanes = [0; 8];
    for row in 0..ROWS {
        lanes[row] = links_in(rows, paths, spans, aims, numbers, row, slot);
    }
    lanes
}
