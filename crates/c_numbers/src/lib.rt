// What crosses to C as numbers: a verdict, the answer of writing out, the sheet of a transaction, its next turn.
#![tactic(auto)]

pub mod copied;
pub mod next;
pub mod sheet;
pub mod told;
pub mod verdict;
