// Clear and load of the whole box, in memory and five numbers that the caller lends.
#![tactic(auto)]

pub mod clear;
pub mod cleared;
pub mod load;
pub mod memory;
