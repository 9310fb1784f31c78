// The desk box: one line of a script answered, in memory and five numbers that the caller keeps.
#![tactic(auto)]

pub mod answer;
