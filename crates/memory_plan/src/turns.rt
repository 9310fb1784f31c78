// The turns of a transaction: the slots at which an entry stands that permits it, read off two words of the summary.
ghost use Rattle.std.specs.Prelude.{◌≡◌, ◌&&◌, ℕ, ◌<◌};
ghost use Rattle.bitsets.specs.Set.{member};
ghost use Rattle.memory_plan.specs.Turns.{Aimed, long_at};

use crate::layout::*;

// The set of the slots of the row's entries that have the target: none for a target over 63.
pub fn aimed_at(aims: &Aims, row: usize, target: u8) -> u64
    requires { row < 8 }
    ensures { Aimed aims.now row target result }
{
    if 64 <= target {
        return 0;
    }
    aims[TURNS + (row * SLOTS + target as usize)]
}

// Those of the slots at which the row's entry is no shorter than so long a span; none where 16 slots are too few.
pub fn lasting(aims: &Aims, row: usize, slots: u64, need: u8) -> u64
    requires { (row < 8) × (0 < need) }
    ensures { (v : ℕ) → member v result ≡ (member v slots && long_at aims.now row need v) }
{
    if LONGEST < need as usize {
        return 0;
    }
    let long = aims[LONG + (row * LONGEST + (need as usize - 1))];
    bitsets::both(slots, long)
}
