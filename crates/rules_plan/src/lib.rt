// What document 01 says of plans: the file, what it means, the verdict on it, its canonical order, the printed line.
// The definitions stand in specs/; the verdict is declared here, so that definitions, contracts and code speak of one type.
#![tactic(auto)]

ghost use Rattle.std.specs.Prelude.{◌≡◌};
ghost use Rattle.rules_plan.specs.Numbers.{fault_number, refusal_number};
ghost use Rattle.rules_plan.specs.Promises.{Promises};

// The verdict on a plan file. `number` and `place` of specs/Verdict give document 01's numbers for each case.
#[derive(Clone, Copy)]
pub enum Verdict {
    // 0: the four counts
    Accepted {
        devices: u8,
        links: u8,
        paths: u8,
        entries: u16,
    },
    // 1 to 12 and 15: the number, and the place in the file
    Faulty {
        number: u8,
        place: u16,
    },
    // 13: the entry that covers another one's slot
    Overrun {
        initiator: u8,
        slot: u8,
    },
    // 14: the slot, the two initiators that clash there, and the link that they share
    Clash {
        slot: u8,
        smaller: u8,
        greater: u8,
        link: u8,
    },
}

// Why a plan file is refused, where one number and one place tell it: "Refusals", 1 to 12, and T-02's 15.
#[derive(Clone, Copy)]
pub enum Fault {
    FileTooLong = 1,
    CutOff = 2,
    UnknownTag = 3,
    TagOrder = 4,
    FieldLength = 5,
    OutOfRange = 6,
    GivenBefore = 7,
    NotGiven = 8,
    TooMany = 9,
    NoWalk = 10,
    NoPath = 11,
    NoIntervals = 12,
    NoEntry = 15,
}

impl From<Fault> for u8 {
    ghost from_gives = { λ fault number. number ≡ fault_number fault };

    fn from(fault: Fault) -> u8 {
        fault as u8
    }
}

// Why an event or a question is refused: 20 to 30, and T-04's 33.
#[derive(Clone, Copy)]
pub enum Refusal {
    NoPlan = 20,
    UpperBits = 21,
    NoInitiator = 22,
    UnknownKind = 23,
    LengthOverMost = 24,
    NotPermitted = 25,
    LineFull = 26,
    NothingLive = 27,
    OtherTransaction = 28,
    SmallBuffer = 29,
    SmallRoom = 30,
    SlotOverMost = 33,
}

impl From<Refusal> for u8 {
    ghost from_gives = { λ refusal number. number ≡ refusal_number refusal };

    fn from(refusal: Refusal) -> u8 {
        refusal as u8
    }
}

// The terms of document 000 section 4 in nanoseconds, by their letters: their sum with the given latencies, and those of them that are worked out.
#[derive(Clone, Copy)]
pub struct Terms {
    pub sum: u32,
    pub b: u32,
    pub c: u32,
    pub e: u32,
    pub h: u32,
    pub i: u32,
}

// What is promised of the definitions. It does nothing: its contract is the theorem.
pub fn promises()
    ensures { Promises }
{}
