// Questions to the plan in memory about a transaction: why it is refused, and when its next turn is.
#![tactic(auto)]

pub mod next;
pub mod refused;
