// The verdict as five numbers, and back.
ghost use Rattle.std.specs.Prelude.{◌≡◌, ◌%◌};
ghost use Rattle.c_numbers.specs.Numbers.{verdict_numbers, verdict_of};

use rules_plan::Verdict;

// Document 01's number of a verdict, then its place, all else 0.
pub fn numbers_of(verdict: Verdict) -> [u32; 5]
    ensures { result ≡ verdict_numbers verdict }
{
    match verdict {
        Verdict::Accepted {
            devices,
            links,
            paths,
            entries,
        } => [
            0,
            devices as u32,
            links as u32,
            paths as u32,
            entries as u32,
        ],
        Verdict::Faulty { number, place } => [number as u32, place as u32, 0, 0, 0],
        Verdict::Overrun { initiator, slot } => [13, initiator as u32, slot as u32, 0, 0],
        Verdict::Clash {
            slot,
            smaller,
            greater,
            link,
        } => [14, slot as u32, smaller as u32, greater as u32, link as u32],
    }
}

// A number cut to one byte, and to two.
fn one_byte(n: u32) -> u8
    ensures { result ≡ n % 256 }
{
    (n % 256) as u8
}

fn two_bytes(n: u32) -> u16
    ensures { result ≡ n % 65536 }
{
    (n % 65536) as u16
}

// The verdict of five numbers, whatever they are.
pub fn verdict_of(numbers: &[u32; 5]) -> Verdict
    ensures { result ≡ verdict_of numbers.now }
{
    let number = numbers[0];
    let one = numbers[1];
    let two = numbers[2];
    let three = numbers[3];
    let four = numbers[4];
    match number {
        0 => Verdict::Accepted {
            devices: one_byte(one),
            links: one_byte(two),
            paths: one_byte(three),
            entries: two_bytes(four),
        },
        13 => Verdict::Overrun {
            initiator: one_byte(one),
            slot: one_byte(two),
        },
        14 => Verdict::Clash {
            slot: one_byte(one),
            smaller: one_byte(two),
            greater: one_byte(three),
            link: one_byte(four),
        },
        _ => Verdict::Faulty {
            number: one_byte(number),
            place: two_bytes(one),
        },
    }
}
