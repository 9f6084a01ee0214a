// What is done with one row or line, by the kind of the row: here a kind becomes its joining.
ghost use Rattle.std.specs.Prelude.{◌≡◌, ◌+◌, ◌≤◌, Option, IfSome, [], ◌∷◌, unsigned_abs};
ghost use Rattle.rules.specs.Bounds.{greatest_row, most_places, greatest_amount};
ghost use Rattle.rules.specs.Grounds.{of_row, with_amount, with_line};
ghost use Rattle.ledger.specs.Drafted.{drafted};
ghost use Rattle.ledger.specs.Lines.{reach};
ghost use Rattle.search.specs.Settings.{setting};
ghost use Rattle.search.specs.Sums.{joined_onto};
ghost use Rattle.search.specs.States.{chosen_from, force, moved_with};

use crate::grid::Grid;
use crate::lines::{NearLine, RowIn};
use crate::pick::Pick;
use crate::search::Search;
use joining::{GreatestAtMost, SumAtLeast, SumAtMost};
use ledger::Draft;
use rules::{Kind, Line};

// A call at the joining of a row. A macro, since no value stands for a type: a trait would need an impl for each use.
macro_rules! at_joining {
    ($grid:expr, $row:expr, $($call:tt)*) => {
        match $grid.kind($row) {
            Kind::SumAtMost => RowIn::<SumAtMost>::new($grid, $row).$($call)*,
            Kind::SumAtLeast => RowIn::<SumAtLeast>::new($grid, $row).$($call)*,
            Kind::GreatestAtMost => RowIn::<GreatestAtMost>::new($grid, $row).$($call)*,
        }
    };
}

// What no amounts of a row come to.
pub(super) fn unit_in(grid: &Grid, row: u8) -> i64
    requires { row ≤ greatest_row }
    ensures { result ≡ ((setting grid.now).joining row).unit }
{
    at_joining!(grid, row, unit())
}

impl Search {
    // The limit of a row in force; the search has its own cap on the price.
    fn limit_in_force(&self, row: u8) -> i64
        requires { row ≤ greatest_row }
        ensures { result ≡ force self.now row }
    {
        if row == 0 {
            self.cap
        } else {
            self.limits[usize::from(row)]
        }
    }

    // The single line of the starting ground of a row.
    pub(super) fn starting_line(&self, row: u8) -> NearLine
        requires { row ≤ greatest_row }
        ensures { result.line ∷ [] ≡ of_row (chosen_from self.now) row }
    {
        let constant = unit_in(&self.grid, row);
        let line = Line {
            row,
            level: 0,
            constant,
        };
        NearLine { line }
    }

    // What the amounts of a row come to, with that of a picked version joined on.
    pub(super) fn joined(&self, pick: Pick, row: u8, so_far: i64) -> i64
        requires row { row ≤ greatest_row }
        requires near { unsigned_abs so_far ≤ reach (most_places + most_places) }
        ensures { result ≡ with_amount (chosen_from self.now) row (pick.index + 1) pick.version so_far }
    {
        at_joining!(&self.grid, row, with_amount(pick, so_far))
    }

    // Whether the constant of a line, joined with what the amounts above its level come to, is worse than the limit of its row.
    pub(super) fn breaks_limit(&self, near: NearLine, above: Option<i64>) -> bool
        requires { IfSome above (λ sum. unsigned_abs sum ≤ reach most_places) }
        ensures { let l = near.line in let J = (chosen_from self.now).joining l.row in result ≡ J.worse (joined_onto J l.constant above) (force self.now l.row) }
    {
        let line = near.line;
        let limit = self.limit_in_force(line.row);
        at_joining!(&self.grid, line.row, breaks(line.constant, above, limit))
    }

    // Adds a line to a draft as it is learned from a ground that stands with a picked version.
    pub(super) fn put_line(&self, draft: &mut Draft, pick: Pick, near: NearLine)
        ensures { let S = chosen_from self.now in drafted draft.new ≡ with_line S (moved_with S pick near.line) (drafted draft.old) }
    {
        at_joining!(&self.grid, near.line.row, put_moved(draft, pick, near));
    }
}
