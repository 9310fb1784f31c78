// The lines that commands of a script print.
#![tactic(auto)]

pub mod texts;
