// Every verdict for every file: field by field, then over the whole plan.
#![tactic(auto)]

pub mod judge;
pub mod whole;
