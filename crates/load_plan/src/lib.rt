// A plan in memory: cleared, and loaded from a file.
#![tactic(auto)]

pub mod load;
