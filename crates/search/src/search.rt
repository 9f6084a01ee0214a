// A search in progress.
ghost use Rattle.std.specs.Prelude.{◌≡◌, ◌≤◌, length};
ghost use Rattle.rules.specs.Bounds.{most_rows};
ghost use Rattle.search.specs.Tables.{most_levels};
ghost use Rattle.search.specs.Sums.{SummedFrom};

use crate::grid::Grid;
use crate::part::Part;
use crate::sums::{LEVELS, RowSums};
use ledger::Ledger;
use rules::MOST_ROWS;

// A search: what it chooses from, the limits of the job and the learned grounds; the part-choice it is at, with what the amounts
// above each level come to, so that a line is joined once; the best choice so far, its own copy of the cap, and the steps made.
#[derive(Drop)]
pub struct Search {
    grid: Grid,
    // Whole: callers give and take back a limit for each row that there may be.
    limits: [i64; MOST_ROWS],
    ledger: Ledger,
    part: Part,
    sums: [RowSums; LEVELS],
    best: Option<Part>,
    cap: i64,
    steps: u32,
    ghost within: { part.opened ≤ grid.places },
    ghost all_rows: { length limits ≡ most_rows },
    ghost levels: { length sums ≡ most_levels },
    ghost summed: { SummedFrom part.opened grid part sums },
}

mod by_kind;
mod findings;
mod grounds;
mod nexts;
mod place;
mod rests;
mod runs;
mod stack;
mod trial;
