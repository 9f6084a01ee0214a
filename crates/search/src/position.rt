// What can be chosen at one position.
use rules::{MOST_ROWS, MOST_VERSIONS};

// The most versions, as the length of a table.
pub(crate) const VERSIONS: usize = MOST_VERSIONS as usize;

// The amounts of one version, by row.
#[derive(Clone, Copy)]
pub(crate) struct Amounts {
    pub(crate) rows: [i32; MOST_ROWS],
}

// How many versions there are, and the amounts of each.
#[derive(Clone, Copy)]
pub(crate) struct Position {
    pub(crate) count: u8,
    pub(crate) versions: [Amounts; VERSIONS],
}
