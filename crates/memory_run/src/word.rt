// A request as one word of run memory.
ghost use Rattle.std.specs.Prelude.{◌≡◌};
ghost use Rattle.rules_plan.specs.Plan.{Plan};
ghost use Rattle.rules_plan.specs.Meaning.{least_span};
ghost use Rattle.rules_box.specs.State.{request};
ghost use Rattle.memory_plan.specs.View.{owner};
ghost use Rattle.memory_run.specs.Run as run;

// A request as one word: its own kind, then what its records say of it, and between the least span that it fits.
pub fn word_of(initiator: u8, target: u8, kind: u8, need: u8, length: u16, number: u16) -> u64
    ensures { (p : Plan) → need ≡ least_span p initiator target length →
        result ≡ run.word_of (owner p initiator) (request target kind length number) }
{
    // A record has the high byte first, a word the low one: four bytes in the other order are one instruction for the compiler.
    let last = (number as u32 * 65_536 + length as u32).swap_bytes() as u64;
    let first = (kind as u64) * 128 + (initiator as u64) * 256 + (target as u64) * 65_536;
    // A least span is at most 17: cut to five bits, what is below the number stays below it whatever the caller gives.
    first + (need as u64) % 32 * 16_777_216 + last * 4_294_967_296
}

// What a word tells of its request.
pub fn target_in(word: u64) -> u8
    ensures { result ≡ run.target_in word }
{
    (word / 65_536 % 64) as u8
}

pub fn need_in(word: u64) -> u8
    ensures { result ≡ run.need_in word }
{
    (word / 16_777_216 % 256) as u8
}

pub fn number_in(word: u64) -> u16
    ensures { result ≡ run.number_in word }
{
    ((word / 4_294_967_296 % 65_536) as u16).swap_bytes()
}

pub fn length_in(word: u64) -> u16
    ensures { result ≡ run.length_in word }
{
    ((word / 281_474_976_710_656 % 65_536) as u16).swap_bytes()
}
