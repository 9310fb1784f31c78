// Writing out: the plan in memory as a file again.
#![tactic(auto)]

pub mod out;
