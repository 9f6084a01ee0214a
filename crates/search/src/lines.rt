// What is done with one row, for every joining: nothing is asked of a joining but its laws.
ghost use Rattle.std.specs.Prelude.{◌≡◌, ◌≤◌};
ghost use Rattle.rules.specs.Bounds.{greatest_row};
ghost use Rattle.ledger.specs.Lines.{Near};
ghost use Rattle.search.specs.Settings.{setting};

use crate::grid::Grid;
use joining::Joining;
use rules::Line;
use std::marker::PhantomData;

// A line that the tables can hold.
#[derive(Clone, Copy)]
pub(crate) struct NearLine {
    pub(crate) line: Line,
    ghost near: { Near line },
}

// A row of a grid, which has the joining J.
#[derive(Drop)]
pub(crate) struct RowIn<'g, J: Joining> {
    grid: &'g Grid,
    row: u8,
    joining: PhantomData<J>,
    ghost there: { row ≤ greatest_row },
    ghost joined: { (setting grid.now).joining row ≡ J.rule },
}

mod joins;
