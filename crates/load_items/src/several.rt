// The numbers of a field, gone through once.
ghost use Rattle.std.specs.Prelude.{◌≡◌, ℕ, ◌<◌};
ghost use Rattle.bitsets.specs.Set.{member, alone};
ghost use Rattle.rules_plan.specs.Numbers.{fault_number};
ghost use Rattle.load_items.specs.Several.{several_fault, several_number, several_told, SetTold};

use rules_plan::Fault;

// Why the numbers of a field are refused: one is over 63; or none is, and one stands twice: what their set is, is known all the same.
#[derive(Clone, Copy)]
pub enum SeveralFault {
    OverMost,
    Twice { set: u64 },
}

impl From<SeveralFault> for Fault {
    ghost from_gives = { λ several fault. fault_number fault ≡ several_number several };

    fn from(several: SeveralFault) -> Fault {
        match several {
            SeveralFault::OverMost => Fault::OutOfRange,
            SeveralFault::Twice { .. } => Fault::GivenBefore,
        }
    }
}

// The set of a number below 64 alone. (What it is of other numbers is not said: so it is one shift and no test.)
pub fn bit_of(n: u8) -> u64
    ensures { n < 64 → (k : ℕ) → member k result ≡ alone n k }
{
    1u64 << (n % 64)
}

// The set of the numbers of a field: verdict 6 where one is over 63, else 7 where one stands twice. (Both are known after one pass, without a
// test for each number.)
pub fn gather(s: &[u8]) -> Result<u64, SeveralFault>
    ensures { (several_told result ≡ several_fault s.now) × SetTold result s.now }
{
    let mut over: u8 = 0;
    let mut again: u64 = 0;
    let mut set: u64 = 0;
    for n in s {
        over |= *n;
        again |= set >> (*n % 64);
        set |= bit_of(*n);
    }
    if 63 < over {
        return Err(SeveralFault::OverMost);
    }
    if bitsets::has(again, 0) {
        return Err(SeveralFault::Twice { set });
    }
    Ok(set)
}
