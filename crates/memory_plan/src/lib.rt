// What plan memory holds: eight arrays that the caller lends, each a function of the plan, and what is read of them.
#![tactic(auto)]

ghost use Rattle.std.specs.Prelude.{◌≡◌, min};

// As many as a count in memory says, which may be any number, but no more than there are places.
pub fn at_most(count: u32, places: usize) -> usize
    ensures { result ≡ min count places }
{
    places.min(count as usize)
}

pub mod entry;
pub mod interval;
pub mod layout;
pub mod rows;
pub mod turns;
