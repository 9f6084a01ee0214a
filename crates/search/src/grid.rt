// The table of amounts.
ghost use Rattle.std.specs.Prelude.{◌≡◌, ◌≤◌, length, slice_index_or};
ghost use Rattle.rules.specs.Bounds.{most_places, greatest_row};
ghost use Rattle.rules.specs.declared.kinds.Kind.TheVariants.{SumAtMost};
ghost use Rattle.search.specs.Tables.{Counted, Long, Wide, Near};

use crate::position::Position;
use rules::{Kind, MOST_PLACES, MOST_ROWS};

// What is chosen from, by position: the kinds of the rows, and how many versions each position has, with their amounts.
// Whole arrays: a grid is made at once and nothing comes or goes, and where the catalogue has no amount it has 0.
#[derive(Drop)]
pub struct Grid {
    places: usize,
    last_row: usize,
    kinds: [Kind; MOST_ROWS],
    positions: [Position; MOST_PLACES],
    ghost few_places: { places ≤ most_places },
    ghost few_rows: { last_row ≤ greatest_row },
    ghost priced: { slice_index_or kinds 0 SumAtMost ≡ SumAtMost },
    ghost whole: { length positions ≡ most_places },
    ghost counted: { Counted positions },
    ghost long: { Long positions },
    ghost wide: { Wide positions },
    ghost near: { Near positions },
}

mod makes;
mod reads;
