// The bounds that code has in it; specs/Bounds.antt has every bound.

// A job has at most so many places.
pub const MOST_PLACES: usize = 16;

// Rows are numbered from 0, the price, to at most this.
pub const GREATEST_ROW: usize = 8;

// A job has at most so many rows, the price among them.
pub const MOST_ROWS: usize = 9;

// A place has at most so many versions.
pub const MOST_VERSIONS: u8 = 32;

// No amount in the meaning of a catalogue, and no unit, lies further from 0 than this.
pub const AMOUNT_REACH: u64 = 1 << 40;

// No amount of a job lies further from 0 than this.
pub const GREATEST_AMOUNT: u64 = 1_000_000;

// No limit of a job lies further from 0 than this.
pub const GREATEST_LIMIT: u32 = 20_000_000;

// At most so many grounds are learned.
pub const MOST_GROUNDS: usize = 512;

// The learned grounds have at most so many lines together.
pub const MOST_LINES: usize = 2048;

// No search makes more steps than this.
pub const MOST_STEPS: u32 = 1_000_000;
