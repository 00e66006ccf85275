//! The machine's limits.

/// The number of lines that a book has: a line's number is below this.
pub const LINES: u32 = 4096;

/// The maximum number of warps: a warp's number is below this.
pub const WARPS: u32 = 32;

/// The maximum number of stores in a log.
pub const STORES: usize = 32;

/// The maximum number of requests that wait for one line.
pub const LINE_ROOM: usize = 4;

/// The maximum number of lines that requests wait for at once.
pub const QUEUE_ROOM: usize = 4;

/// The last stamp of the clock: no transaction begins at a later one.
pub const LAST_STAMP: u32 = 1_000_000_000;
