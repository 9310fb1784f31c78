// Writing out: the plan in memory as a file again, its fields in canonical order, in a lent buffer.
ghost use Rattle.rules_plan.specs.Copy.{copied_told};
ghost use Rattle.out_plan.specs.Out.{WritesOut};

use memory_plan::at_most;
use memory_plan::interval::is_loaded;
use memory_plan::layout::*;
use out_items::{put_devices, put_links, put_times, put_timing};
use out_rows::{put_entries, put_paths};
use rules_plan::Refusal;

// "Writing out answers 0 and the size; room beyond it keeps its bytes."
pub fn write_out(
    sets: &Sets,
    ends: &Ends,
    rows: &Rows,
    paths: &Paths,
    spans: &Spans,
    aims: &Aims,
    numbers: &Numbers,
    out: &mut [u8],
) -> Result<u16, Refusal>
    ensures { WritesOut sets.now ends.now rows.now paths.now spans.now aims.now numbers.now out.old (copied_told result) out.new }
{
    if !is_loaded(numbers) {
        return Err(Refusal::NoPlan);
    }
    // A plan is as long as its file, and that has at most 16,384 bytes.
    let size = (numbers[SIZE] % 65_536) as u16;
    if out.len() < size as usize {
        return Err(Refusal::SmallRoom);
    }
    let devices = put_devices(out, 0, sets[NODES], sets[ROUTERS]);
    let links = put_links(out, devices, sets[LINKS], ends);
    let count = at_most(numbers[PATHS], MOST_PATHS);
    let routes = put_paths(out, links, paths, 3, 0, count);
    let entries = put_entries(
        out,
        routes,
        rows,
        spans,
        aims,
        SLOTS * at_most(numbers[INITIATORS], ROWS),
    );
    let timing = put_timing(out, entries, numbers[LEAST], numbers[GREATEST]);
    let times = put_times(out, timing, numbers);
    put_paths(out, times, paths, 7, REPLIES, count);
    Ok(size)
}
