// The watchdog: its five numbers by value.
#![tactic(auto)]

pub mod watch;
