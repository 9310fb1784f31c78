// What document 01 says of the running box: its state, the events, the answers, the records, and the promises over them.
// The definitions stand in specs/; the types that cross a call are declared here, so that definitions, contracts and code speak of one type.
#![tactic(auto)]

ghost use Rattle.std.specs.Prelude.{◌≡◌};
ghost use Rattle.rules_box.specs.Answer.{class_number};
ghost use Rattle.rules_box.specs.Samples.{Samples};
ghost use Rattle.rules_box.specs.Promises.{Promises};

use rules_plan::Refusal;

// "An event is one of: time-code with its byte and clock; request with initiator, target, kind, length; reply with initiator,
// transaction number, status; clock reading."
#[derive(Clone, Copy)]
pub enum Event {
    TimeCode {
        byte: u8,
        clock: u32,
    },
    Request {
        initiator: u8,
        target: u8,
        kind: u8,
        length: u16,
    },
    Reply {
        initiator: u8,
        number: u16,
        status: u8,
    },
    Reading {
        clock: u32,
    },
}

// The class of a reply's status: "0 success, 1 to 7 and 9 to 12 errors, 8 and 13 to 255 reserved".
#[derive(Clone, Copy)]
pub enum Class {
    Success = 0,
    Error = 1,
    Reserved = 2,
}

impl From<Class> for u8 {
    ghost from_gives = { λ class number. number ≡ class_number class };

    fn from(class: Class) -> u8 {
        class as u8
    }
}

// What a reply answers: "the ended transaction's target, length, status and class".
#[derive(Clone, Copy)]
pub struct Ending {
    pub target: u8,
    pub length: u16,
    pub status: u8,
    pub class: Class,
}

// What an accepted event answers: a time-code the record count, a request its transaction number, a reply what it ends, a clock reading
// whether the next time-code is late.
#[derive(Clone, Copy)]
pub enum Done {
    Recorded { count: u8 },
    Joined { number: u16 },
    Ended(Ending),
    Told { late: bool },
}

// What an event answers. `answer_told` of specs/Answer gives document 01's answer for each case, and `values` its number and values.
pub type Answer = Result<Done, Refusal>;

// "The watchdog's five numbers belong to the caller, who lends them and finds them updated: last clock, whether seen, whether
// reported, least, greatest." Whether seen and whether reported are numbers like the others: 0 is no, all else is yes. The default, all 0,
// is what a clear leaves.
#[repr(C)]
#[derive(Clone, Copy, Default, PartialEq, Eq)]
pub struct Watchdog {
    pub last: u32,
    pub seen: u32,
    pub reported: u32,
    pub least: u32,
    pub greatest: u32,
}

// The samples of document 01 that are marked (P). It does nothing: its contract is the theorem.
pub fn samples()
    ensures { Samples }
{}

// What is promised of the definitions. It does nothing: its contract is the theorem, and rests on that of the plan rules.
pub fn promises()
    ensures { Promises }
{
    rules_plan::promises();
}
