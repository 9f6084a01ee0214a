// The table of a closing ground.
ghost use Rattle.std.specs.Prelude.{◌≡◌, ◌≤◌, length};
ghost use Rattle.rules.specs.Bounds.{most_rows};

use rules::{Line, MOST_ROWS};

// The lines of a closing ground: it lies above all positions, and so has no row twice.
// A verdict is copied, so they stand in an array with their count.
#[derive(Clone, Copy, Debug, PartialEq, Eq)]
pub struct Closing {
    lines: [Line; MOST_ROWS],
    count: usize,
    ghost within: { count ≤ most_rows },
    ghost long: { length lines ≡ most_rows },
}

mod calls;
