// A time-code, on plan memory and run memory that the caller lends: the sequence rule, lateness, the visits, the records.
#![tactic(auto)]

pub mod late;
pub mod sequence;
pub mod time;
pub mod visits;
