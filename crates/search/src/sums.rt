// What the amounts of the rows come to above a level.
ghost use Rattle.std.specs.Prelude.{◌≡◌, length};
ghost use Rattle.rules.specs.Bounds.{most_rows};

use rules::{MOST_PLACES, MOST_ROWS};

// Levels go from 0 to the number of places.
pub(crate) const LEVELS: usize = MOST_PLACES + 1;

// The amounts of each row joined over the positions above one level.
#[derive(Clone, Copy)]
pub(crate) struct RowSums {
    pub(crate) rows: [i64; MOST_ROWS],
    ghost long: { length rows ≡ most_rows },
}
