// Where the lines of a ground lie in the table of lines, from one index up to another, and the lowest level among them.
// A list of lists would need a heap, which no library here has.
#[derive(Clone, Copy, Default)]
pub(crate) struct GroundRecord {
    pub(crate) start: usize,
    pub(crate) end: usize,
    pub(crate) lowest: u8,
}
