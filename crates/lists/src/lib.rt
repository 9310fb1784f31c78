// Definitions and laws on lists that know nothing of the product: searches, rows, places, orders. They stand in specs/, where the
// crates above cite them. In code: lists compared with one another and with zeros, whatever the width of their numbers.
#![tactic(auto)]

pub mod equal;
