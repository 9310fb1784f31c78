// The printed verdict: one line in a lent buffer.
#![tactic(auto)]

pub mod print;
