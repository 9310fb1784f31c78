// Requests and replies with all their refusals, on plan memory and run memory that the caller lends.
#![tactic(auto)]

pub mod asking;
pub mod ending;
pub mod reply;
pub mod request;
