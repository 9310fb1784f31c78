// A reply that comes home another way: what is asked of memory before it is judged; and, without a fault, kept in a row behind that of its path, with
// the fixed time of its pair.
#![tactic(auto)]

ghost use Rattle.std.specs.Prelude.{◌≡◌, ℕ, ◌≤◌, ◌<◌, length};
ghost use Rattle.rules_plan.specs.Plan.{Route, Plan, reply, grow};
ghost use Rattle.memory_plan.specs.Memory.{rows_of, paths_of, numbers_with};
ghost use Rattle.load_path_faults.specs.Routes.{route};
ghost use Rattle.load_replies.specs.Home.{has_row, ReplyAsked, HomeTo, HomeOf};

use load_path_faults::Asked;
use load_path_places::path_of;
use load_paths::store_path;
use memory_plan::at_most;
use memory_plan::layout::*;
use memory_plan::rows::row_among;
use time_sheet::{Latencies, Pace, routers_over};

// Whether the path at place k has a reply already. (128 says that there is no path.)
fn has_reply(paths: &Paths, k: usize) -> bool
    ensures { result ≡ has_row paths.now k }
{
    k < MOST_PATHS && paths[(REPLIES + k) * PATH + PATH_COUNT] != 0
}

// Stores the fixed time by the rate of the pair, out over its path at place k and home over so many links. Without times the rate is 0, which is
// out of range.
fn put_home(
    rows: &Rows,
    paths: &Paths,
    numbers: &mut Numbers,
    k: usize,
    initiator: u8,
    target: u8,
    links: u8,
)
    requires { k < 128 }
    ensures { HomeOf k initiator target links rows.now paths.now numbers.old numbers.new }
{
    let given = Latencies {
        a: numbers[LATENCY_A],
        d: numbers[LATENCY_D],
        f: numbers[LATENCY_F],
        g: numbers[LATENCY_G],
    };
    let Some(pace) = Pace::new(numbers[RATE], given) else {
        return;
    };
    let row = row_among(rows, numbers[INITIATORS], initiator);
    if ROWS <= row || 64 <= target {
        return;
    }
    let out = routers_over(paths[k * PATH + PATH_COUNT]);
    let home = routers_over(links);
    numbers[COSTS + row * SLOTS + target as usize] = pace.cost(out, home);
}

// What rows 7, 9 and 11 ask of a reply, which starts at the target; its place is that of its path.
pub fn reply_asked(paths: &Paths, numbers: &Numbers, initiator: u8, target: u8) -> Asked
    ensures { ReplyAsked paths.now numbers.now initiator target result.start result.end result.place result.again result.many result.alone }
{
    let count = at_most(numbers[PATHS], MOST_PATHS);
    let k = path_of(paths, count, initiator, target).unwrap_or(MOST_PATHS);
    Asked {
        start: target,
        end: initiator,
        place: k,
        again: has_reply(paths, k),
        many: false,
        alone: k == MOST_PATHS,
    }
}

// Keeps a reply that has no fault behind its path at place k, and the fixed time of its pair.
pub fn keep_reply(
    rows: &Rows,
    paths: &mut Paths,
    numbers: &mut Numbers,
    k: usize,
    initiator: u8,
    target: u8,
    links: &[u8],
)
    requires { (k < 128) × (length links.now ≤ 8) }
    ensures { (size : ℕ) (p : Plan) (x : Route) → HomeTo p (route target initiator links.now) x k →
        rows.now ≡ rows_of p → paths.old ≡ paths_of p → numbers.old ≡ numbers_with size p →
        (paths.new ≡ paths_of (grow p (reply (route target initiator links.now))))
        × (numbers.new ≡ numbers_with size (grow p (reply (route target initiator links.now)))) }
{
    put_home(
        rows,
        paths,
        numbers,
        k,
        initiator,
        target,
        links.len() as u8,
    );
    store_path(paths, (REPLIES + k) * PATH, initiator, target, links);
}
