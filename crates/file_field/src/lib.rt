// One field of a plan file: its tag, its length, its content as a part of the file's own bytes.
#![tactic(auto)]

pub mod field;
pub mod tags;
