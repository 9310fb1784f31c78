// The layout of plan memory: eight arrays that the caller lends, with the places and the strides in them. What they hold is said in
// specs/Memory; nothing else names a place by its number.

// `sets`: the nodes, the routers and the links that are given, each a word.
pub const SETS: usize = 3;

pub type Sets = [u64; SETS];

pub const NODES: usize = 0;

pub const ROUTERS: usize = 1;

pub const LINKS: usize = 2;

// `ends`: of each link its two devices, the smaller first.
pub const LINK: usize = 2;

pub const ENDS: usize = 128;

pub type Ends = [u8; ENDS];

// `rows`: the initiators. An initiator's place here is its row in `reach`, `spans` and `aims`.
pub const ROWS: usize = 8;

pub type Rows = [u8; ROWS];

// `reach`: for each row the targets to which there is a path.
pub type Reach = [u64; ROWS];

// `paths`: a row of bytes for each path: initiator, target, how many links, the links; and REPLIES rows behind it that of its reply, where it
// comes home another way, else 0.
pub const MOST_PATHS: usize = 128;

pub const REPLIES: usize = 128;

pub const PATH: usize = 11;

pub const PATH_TARGET: usize = 1;

pub const PATH_COUNT: usize = 2;

pub const PATH_LINKS: usize = 3;

pub const MOST_LINKS: usize = 8;

pub const PATH_BYTES: usize = 2816;

pub type Paths = [u8; PATH_BYTES];

// `spans` and `aims`: a cell for each row and slot, at row × SLOTS + slot. Behind these `aims` has the summary: for each row and target, at
// TURNS + row × SLOTS + target, the slots of the entries that have the target; and for each row and span, at LONG + row × LONGEST + span − 1,
// the slots of the entries whose span is no shorter.
pub const SLOTS: usize = 64;

pub const CELLS: usize = 512;

pub type Spans = [u8; CELLS];

pub const AIMS: usize = 1152;

pub type Aims = [u64; AIMS];

pub const TURNS: usize = 512;

pub const LONG: usize = 1024;

pub const LONGEST: usize = 16;

// `numbers`: least and greatest interval, how many initiators, paths and entries there are, the size of the plan written out; the rate and
// the four latencies, and a slot by the rate; then for each row and target, at COSTS + row × SLOTS + target, the fixed time of that path by
// the rate. By the rate, in Mbit/s, nanoseconds are thousandths of a bit: so lengths and times are compared, and nothing is divided.
pub const NUMBERS: usize = 524;

pub type Numbers = [u32; NUMBERS];

pub const LEAST: usize = 0;

pub const GREATEST: usize = 1;

pub const INITIATORS: usize = 2;

pub const PATHS: usize = 3;

pub const ENTRIES: usize = 4;

pub const SIZE: usize = 5;

pub const RATE: usize = 6;

pub const LATENCY_A: usize = 7;

pub const LATENCY_D: usize = 8;

pub const LATENCY_F: usize = 9;

pub const LATENCY_G: usize = 10;

pub const SLOT: usize = 11;

pub const COSTS: usize = 12;
