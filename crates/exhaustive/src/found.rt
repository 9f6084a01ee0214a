// What was found.
use rules::MOST_PLACES;

// A choice that keeps the limits: the versions by place, and their price. Past the last place the table has 0.
// It is copied as trials go on, so its table is of fixed size.
#[derive(Clone, Copy, Debug, PartialEq, Eq)]
pub struct Found {
    pub versions: [u8; MOST_PLACES],
    pub price: i64,
}
