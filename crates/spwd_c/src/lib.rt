// The box as C calls it: numbers, and arrays that the caller lends. `&[T]` and `&mut [T]` cross as a pointer and a length.
#![tactic(auto)]

pub mod ask;
pub mod call;
pub mod event;
pub mod next;
pub mod out;
pub mod sheet;
pub mod version;
