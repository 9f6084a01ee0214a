// Sheets: what is asked of a set.
ghost use Rattle.std.specs.Prelude.{◌≡◌};
ghost use Rattle.rules.specs.Openings.{contains_all};

use crate::bounds::{GREATEST_ROW, MOST_PLACES};

// A row other than the price: the number of its kind, and its limit. The number stays plain, since one that stands for
// no kind is a fault of the opening and must be sayable.
#[derive(Clone, Copy, Debug, Default, PartialEq, Eq)]
pub struct Row {
    pub kind: u8,
    pub limit: i32,
}

// The counts, kinds, limits and order of a job. Nothing is tested here: opening a job tests all of it. So the counts are
// not the lengths of the tables: one that lies outside must be sayable too.
#[derive(Clone, Copy, Debug, PartialEq, Eq)]
pub struct Sheet {
    pub places: u8,
    // Rows are numbered from 0, the price, to this.
    pub last_row: u8,
    // The limit of the price.
    pub cap: i32,
    // The rows from row 1 on; those past the last row are not read.
    pub rows: [Row; GREATEST_ROW],
    // The places, the one that gives way first at the front; those past the number of places are not read.
    pub order: [u8; MOST_PLACES],
}

// Whether an order lists each place from 1 up to a number.
pub fn lists_each(places: u8, order: &[u8]) -> bool
    ensures { result ≡ contains_all places order.now }
{
    (1..=places).all(|place| order.contains(&place))
}
