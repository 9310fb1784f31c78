// The watchdog's five numbers, by value: early, overdue, told, fed.
ghost use Rattle.std.specs.Prelude.{◌≡◌, ◌+◌, ◌%◌, ◌^◌};
ghost use Rattle.rules_box.specs.Watch.{elapsed, is_early, is_overdue, told, fed};

use rules_box::Watchdog;

// "modulo 2 to the 32"
fn difference(a: u32, b: u32) -> u32
    ensures { (result + b) % 2 ^ 32 ≡ a }
{
    std::num::wrapping_sub_u32(a, b)
}

// "Elapsed is the reading less the last time-code's clock"
#[tactic(auto, unfolding(rules_box::specs::Watch::elapsed))]
pub fn elapsed_since(w: Watchdog, clock: u32) -> u32
    ensures { result ≡ elapsed w clock }
{
    difference(clock, w.last)
}

// "early if elapsed < least"; "neither if none was seen"
pub fn is_early(w: Watchdog, clock: u32) -> bool
    ensures { result ≡ is_early w clock }
{
    w.seen != 0 && elapsed_since(w, clock) < w.least
}

// "if a time-code was seen, elapsed > greatest, and it was not yet reported"
pub fn is_overdue(w: Watchdog, clock: u32) -> bool
    ensures { result ≡ is_overdue w clock }
{
    let elapsed = elapsed_since(w, clock);
    w.seen != 0 && w.greatest < elapsed && w.reported == 0
}

// "and reported becomes yes"
#[tactic(auto, unfolding(rules_box::specs::Watch::told))]
pub fn told_of(w: Watchdog) -> Watchdog
    ensures { result ≡ told w }
{
    Watchdog { reported: 1, ..w }
}

// "Then its clock is the last, seen is yes and reported no"
#[tactic(auto, unfolding(rules_box::specs::Watch::fed))]
pub fn fed_with(w: Watchdog, clock: u32) -> Watchdog
    ensures { result ≡ fed w clock }
{
    Watchdog {
        last: clock,
        seen: 1,
        reported: 0,
        ..w
    }
}
