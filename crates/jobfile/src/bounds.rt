// The bounds of job files.

// A file has at most so many bytes.
pub const MOST_BYTES: usize = 32_768;

// A file has at most so many calls.
pub const MOST_CALLS: usize = 256;
