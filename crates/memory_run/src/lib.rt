// Run memory, one initiator's row at a time.
#![tactic(auto)]

pub mod layout;
pub mod row;
pub mod word;
