// The fields of a file, front to back, up to the first fault: each is judged and then kept in plan memory.
#![tactic(auto)]

ghost use Rattle.std.specs.Prelude.{◌≡◌, ◌⊎◌, ◌≢◌, true, [], ℕ, ◌≤◌, length};
ghost use Rattle.std.proofs.Math.Option.{some};
ghost use Rattle.rules_plan.specs.Plan.{Plan, Item, blank};
ghost use Rattle.rules_plan.specs.Fields.{as_times, length_allowed, item_of};
ghost use Rattle.rules_plan.specs.Numbers.{fault_told};
ghost use Rattle.rules_plan.specs.laws.Fair.{Fair};
ghost use Rattle.memory_plan.specs.Memory.{sets_of, ends_of, rows_of, reach_of, paths_of, numbers_with, HoldsSized, Holds};
ghost use Rattle.memory_plan.specs.Take.{item_fault, taken};
ghost use Rattle.load_paths.specs.Keep.{PathAsked};
ghost use Rattle.load_replies.specs.Home.{ReplyAsked};
ghost use Rattle.load_fields.specs.Fields.{Awaits, Takes, TakesRoute, ReadIn};
ghost use Rattle.memory_plan.specs.Lent.{at_entry, at_exit};

use bytes_get::{four_at, part, two_at};
use file_field::field::head_at;
use load_entries::entry;
use load_items::devices::device;
use load_items::intervals::timing;
use load_items::links::link;
use load_path_faults::{Asked, route_fault};
use load_paths::{keep_path, path_asked};
use load_replies::{keep_reply, reply_asked};
use load_times::times;
use memory_plan::layout::*;
use rules_plan::Fault;
use time_sheet::Latencies;

// The first fault of a file, and the offset of its field.
#[derive(Clone, Copy)]
pub struct FaultAt {
    pub fault: Fault,
    pub at: usize,
}

// Judges the content of a 06; without a fault the numbers have its times.
fn take_times(
    content: &[u8],
    rows: &Rows,
    paths: &Paths,
    numbers: &mut Numbers,
) -> Result<(), Fault>
    requires { 22 ≤ length content.now }
    ensures { (size : ℕ) (p : Plan) → Fair p → rows.now ≡ rows_of p → paths.now ≡ paths_of p → numbers.old ≡ numbers_with size p →
        p.times ≡ [] → p.replies ≡ [] →
        (fault_told result ≡ item_fault p (as_times content.now)) × (numbers.new ≡ numbers_with size (taken p (as_times content.now))) }
{
    let given = Latencies {
        a: four_at(content, 2),
        d: four_at(content, 6),
        f: four_at(content, 10),
        g: four_at(content, 14),
    };
    times(
        rows,
        paths,
        numbers,
        two_at(content, 0),
        given,
        four_at(content, 18),
    )
}

// The route of a 03 or a 07 as its rows ask of it.
fn asked(
    tag: u8,
    rows: &Rows,
    reach: &Reach,
    paths: &Paths,
    numbers: &Numbers,
    initiator: u8,
    target: u8,
) -> Asked
    ensures { (tag ≡ 3 → PathAsked rows.now reach.now numbers.now initiator target result.start result.end result.place result.again result.many result.alone)
        × (tag ≢ 3 → ReplyAsked paths.now numbers.now initiator target result.start result.end result.place result.again result.many result.alone) }
{
    if tag == 3 {
        path_asked(rows, reach, numbers, initiator, target)
    } else {
        reply_asked(paths, numbers, initiator, target)
    }
}

// Judges the content of a 03 or a 07, initiator, target and links; without a fault memory has its path or its reply. Both are judged by one
// call, so that the compiler puts the judging in here.
fn take_route(
    tag: u8,
    content: &[u8],
    sets: &Sets,
    ends: &Ends,
    rows: &mut Rows,
    reach: &mut Reach,
    paths: &mut Paths,
    numbers: &mut Numbers,
) -> Result<(), Fault>
    requires { (length_allowed tag (length content.now) ≡ true) × ((tag ≡ 3) ⊎ (tag ≡ 7)) }
    ensures { (size : ℕ) (p : Plan) (x : Item) → Fair p → Awaits p tag → item_of tag content.now ≡ some x →
        sets.now ≡ sets_of p → ends.now ≡ ends_of p → rows.old ≡ rows_of p → reach.old ≡ reach_of p →
        paths.old ≡ paths_of p → numbers.old ≡ numbers_with size p →
        TakesRoute size p x (fault_told result) rows.new reach.new paths.new numbers.new }
{
    let initiator = content[0];
    let target = content[1];
    let links = &content[2..];
    let a = asked(tag, rows, reach, paths, numbers, initiator, target);
    route_fault(sets, ends, links, &a)?;
    if tag == 3 {
        keep_path(
            rows, reach, paths, numbers, a.place, initiator, target, links,
        );
    } else {
        keep_reply(rows, paths, numbers, a.place, initiator, target, links);
    }
    Ok(())
}

// Judges one field's content, of an allowed length: verdicts 6 to 11; without a fault memory has its item.
fn take_item(
    tag: u8,
    content: &[u8],
    sets: &mut Sets,
    ends: &mut Ends,
    rows: &mut Rows,
    reach: &mut Reach,
    paths: &mut Paths,
    spans: &mut Spans,
    aims: &mut Aims,
    numbers: &mut Numbers,
) -> Result<(), Fault>
    requires { length_allowed tag (length content.now) ≡ true }
    ensures { (size : ℕ) (p : Plan) (x : Item) → Fair p → Awaits p tag → item_of tag content.now ≡ some x →
        at_entry (HoldsSized size p) sets ends rows reach paths spans aims numbers →
        at_exit (Takes size p x (fault_told result)) sets ends rows reach paths spans aims numbers }
{
    match tag {
        1 => device(sets, content[0], content[1]),
        2 => link(sets, ends, content[0], content[1], content[2]),
        4 => entry(
            sets,
            rows,
            reach,
            spans,
            aims,
            numbers,
            content[0],
            content[1],
            content[2],
            &content[3..],
        ),
        5 => timing(numbers, four_at(content, 0), four_at(content, 4)),
        6 => take_times(content, rows, paths, numbers),
        _ => take_route(tag, content, sets, ends, rows, reach, paths, numbers),
    }
}

// Reads the whole file into memory that holds no plan.
// Kept: the C interface lends the eight arrays one by one.
pub fn read_fields(
    file: &[u8],
    sets: &mut Sets,
    ends: &mut Ends,
    rows: &mut Rows,
    reach: &mut Reach,
    paths: &mut Paths,
    spans: &mut Spans,
    aims: &mut Aims,
    numbers: &mut Numbers,
) -> Result<(), FaultAt>
    requires file_len_bound { length file.now ≤ 16384 }
    requires holds { Holds blank sets.old ends.old rows.old reach.old paths.old spans.old aims.old numbers.old }
    ensures { at_exit (ReadIn file.now result) sets ends rows reach paths spans aims numbers }
{
    let mut at: usize = 0;
    let mut before: u8 = 0;
    // Kept: the new form, a for loop, is no plainer: each field says where the next one begins.
    while at < file.len() {
        // Kept: tried map_err and ?, and the proof didn't close: what a closure makes is hidden in the answers.
        let head = match head_at(file, at, before) {
            Ok(head) => head,
            Err(fault) => return Err(FaultAt { fault, at }),
        };
        let tag = head.tag;
        let next = at + 3 + head.size as usize;
        let content = part(file, at + 3, head.size as usize);
        if let Err(fault) = take_item(
            tag, content, sets, ends, rows, reach, paths, spans, aims, numbers,
        ) {
            return Err(FaultAt { fault, at });
        }
        before = tag;
        at = next;
        numbers[SIZE] = next as u32;
    }
    Ok(())
}
