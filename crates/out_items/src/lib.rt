// Devices, links, intervals and times in memory as fields of a file again, in a lent buffer.
// No function here stores a byte that has no room, whatever the memory holds.
#![tactic(auto)]

ghost use mathlib.Core.List.{flat_map};
ghost use Rattle.lists.specs.Search.{below64};
ghost use Rattle.lists.specs.Puts.{Puts};
ghost use Rattle.rules_plan.specs.Fields.{two_bytes, four_bytes};
ghost use Rattle.out_items.specs.Out.{device_bytes, link_bytes, timing_bytes, times_bytes};

use bitsets::{has, least, union, without_least};
use bytes_put::put;
use memory_plan::layout::*;

// The devices, by number.
pub fn put_devices(out: &mut [u8], at: usize, nodes: u64, routers: u64) -> usize
    ensures { Puts out.old at (flat_map (device_bytes nodes routers) below64) out.new result }
{
    let mut k = at;
    let mut rest = union(nodes, routers);
    while rest != 0 {
        let n = least(rest) as u8;
        let device = [1, 0, 2, n, has(routers, n) as u8];
        k = put(out, k, &device);
        rest = without_least(rest);
    }
    k
}

// The links, by number, the smaller device first.
pub fn put_links(out: &mut [u8], at: usize, links: u64, ends: &Ends) -> usize
    ensures { Puts out.old at (flat_map (link_bytes links ends.now) below64) out.new result }
{
    let mut k = at;
    let mut rest = links;
    while rest != 0 {
        let n = least(rest) as u8;
        let i = 2 * (n as usize);
        let smaller = ends[i];
        let greater = ends[i + 1];
        let link = [2, 0, 3, n, smaller, greater];
        k = put(out, k, &link);
        rest = without_least(rest);
    }
    k
}

// A number in two and in four bytes, most significant first.
fn put_two(out: &mut [u8], at: usize, n: u16) -> usize
    ensures { Puts out.old at (two_bytes n) out.new result }
{
    put(out, at, &n.to_be_bytes())
}

fn put_four(out: &mut [u8], at: usize, n: u32) -> usize
    ensures { Puts out.old at (four_bytes n) out.new result }
{
    let four = n.to_be_bytes();
    put(out, at, &four)
}

// The timing: the least and the greatest interval.
pub fn put_timing(out: &mut [u8], at: usize, least: u32, greatest: u32) -> usize
    ensures { Puts out.old at (timing_bytes least greatest) out.new result }
{
    let head = [5, 0, 8];
    let k = put(out, at, &head);
    let j = put_four(out, k, least);
    put_four(out, j, greatest)
}

// The rate, the latencies and the slot length, which is kept by the rate; nothing where the plan carries none.
pub fn put_times(out: &mut [u8], at: usize, numbers: &Numbers) -> usize
    ensures { Puts out.old at (times_bytes numbers.now) out.new result }
{
    let rate = numbers[RATE];
    if rate == 0 {
        return at;
    }
    let head = [6, 0, 22];
    let k = put(out, at, &head);
    let a = put_two(out, k, (rate % 65_536) as u16);
    let d = put_four(out, a, numbers[LATENCY_A]);
    let f = put_four(out, d, numbers[LATENCY_D]);
    let g = put_four(out, f, numbers[LATENCY_F]);
    let slot = put_four(out, g, numbers[LATENCY_G]);
    put_four(out, slot, numbers[SLOT] / rate)
}
