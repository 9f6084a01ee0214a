// The lines of grounds.

// A line of a ground: its constant, joined with the row's amounts at the positions above its level, is to be worse than the row's limit.
#[derive(Clone, Copy, Debug, Default, PartialEq, Eq)]
pub struct Line {
    pub row: u8,
    pub level: u8,
    pub constant: i64,
}

// A line of a closing ground, which lies above all positions: its constant is to be worse than the row's limit.
#[derive(Clone, Copy, Debug, Default, PartialEq, Eq)]
pub struct ClosingLine {
    pub row: u8,
    pub constant: i64,
}
