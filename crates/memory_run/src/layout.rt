// The layout of run memory: a row of words for each initiator, and the last accepted time-code. What they hold is said in specs/Run; nothing
// else names a place by its number.

// A row: the next number, how many wait, the places of the line, the live request, the time-codes left to it with its span.
pub const ROW: usize = 12;

pub const NEXT: usize = 0;

pub const WAITING: usize = 1;

pub const LINE: usize = 2;

pub const PLACES: usize = 8;

pub const LAST_PLACE: usize = 7;

pub const LIVE: usize = 10;

pub const TIME: usize = 11;

// The rows of all eight.
pub const RUN: usize = 96;

pub type Run = [u64; RUN];

// The last accepted time-code: 0 for none, else its byte and 1.
pub const LAST: usize = 1;

pub type Last = [u8; LAST];
