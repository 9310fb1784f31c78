// The small items of a plan, devices, links and intervals, each judged after the plan so far and kept; and what all items share.
#![tactic(auto)]

pub mod devices;
pub mod intervals;
pub mod links;
pub mod several;
