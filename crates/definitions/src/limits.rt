// The numbers that the scope fixes, each once for all code; specs/Spans.antt has them for contracts.

// Lows, highs and the service level.
pub const LEAST_VALUE: i32 = -268435456;

pub const MOST_VALUE: i32 = 268435456;

// A detector's address.
pub const LEAST_ADDRESS: u32 = 1;

pub const MOST_ADDRESS: u32 = 65535;

// A direction: 0 for rising, 1 for falling.
pub const MOST_DIRECTION: u32 = 1;

// A step, in seconds; service can start at its multiples.
pub const LEAST_STEP: u32 = 1;

pub const MOST_STEP: u32 = 86400;

// The last time.
pub const MOST_TIME: u32 = 4294967295;

// Stands for a time that there is not.
pub const NO_TIME: u64 = 4294967296;

// How many ranges a trace has at most.
pub const MOST_RANGES: usize = 4096;

// The least length of each list that Read fills.
pub const READ_ROOM: usize = MOST_RANGES;

// The least length of the slice that Write fills: the largest file.
pub const WRITE_ROOM: usize = 61463;

// The least length of each slice that Segment fills: two ranges always have a line, so there are no more segments.
pub const SEGMENT_ROOM: usize = 2048;

// The least length of each slice that Corners and Latest fill: k ranges have at most 2k corners.
pub const CORNER_ROOM: usize = 8192;

// How many entries a panel has at most.
pub const MOST_HEADS: usize = 64;

// The places of which each head is sure, and the others, which all heads share.
pub const SURE_PLACES: u32 = 32;

pub const COMMON_PLACES: u64 = 2048;

// The least length of each list of a panel, and of each list into which a head's ranges go.
pub const PANEL_ROOM: usize = 4096;
