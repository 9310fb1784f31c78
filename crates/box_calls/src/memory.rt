// The arrays of a box where a program owns them together; a caller in C lends each array by itself.
ghost use Rattle.std.specs.Prelude.{◌≡◌};
ghost use Rattle.box_calls.specs.Owned.{plan_zeros, box_zeros};

use memory_plan::layout::*;
use memory_run::layout::*;

// Plan memory.
#[derive(Drop)]
pub struct PlanMemory {
    pub sets: Sets,
    pub ends: Ends,
    pub rows: Rows,
    pub reach: Reach,
    pub paths: Paths,
    pub spans: Spans,
    pub aims: Aims,
    pub numbers: Numbers,
}

impl PlanMemory {
    // Every number 0, as a program has it before the first call.
    pub fn zeros() -> PlanMemory
        ensures { result ≡ plan_zeros }
    {
        PlanMemory {
            sets: [0; SETS],
            ends: [0; ENDS],
            rows: [0; ROWS],
            reach: [0; ROWS],
            paths: [0; PATH_BYTES],
            spans: [0; CELLS],
            aims: [0; AIMS],
            numbers: [0; NUMBERS],
        }
    }
}

// Plan memory and run memory.
#[derive(Drop)]
pub struct BoxMemory {
    pub plan: PlanMemory,
    pub run: Run,
    pub last: Last,
}

impl BoxMemory {
    pub fn zeros() -> BoxMemory
        ensures { result ≡ box_zeros }
    {
        BoxMemory {
            plan: PlanMemory::zeros(),
            run: [0; RUN],
            last: [0; LAST],
        }
    }
}
