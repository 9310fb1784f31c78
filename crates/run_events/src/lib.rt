// The four events: a clock reading, the step over every event, and an answer as numbers.
#![tactic(auto)]

pub mod reading;
pub mod step;
pub mod values;
