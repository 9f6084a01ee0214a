// The part-choice of a search, and what the amounts above each level come to.
ghost use Rattle.std.specs.Prelude.{◌≡◌, ◌+◌, ◌<◌, ◌≤◌, [], ◌∷◌, slice_set};
ghost use Rattle.rules.specs.Bounds.{greatest_row};
ghost use Rattle.rules.specs.Grounds.{part_total};
ghost use Rattle.search.specs.Settings.{setting};
ghost use Rattle.search.specs.Sums.{Totals};
ghost use Rattle.search.specs.States.{chosen_from, above, part_in, SameBut};

use crate::grid::Grid;
use crate::pick::Pick;
use crate::search::Search;
use crate::search::by_kind::unit_in;
use crate::sums::RowSums;
use std::array;

// What no amounts come to, in each row.
pub(super) fn units_in(grid: &Grid) -> RowSums
    ensures { Totals (setting grid.now) [] result }
{
    RowSums {
        rows: array::from_fn(|row| unit_in(grid, row as u8)),
    }
}

impl Search {
    // What the amounts of a row come to with a version picked on top of those above it.
    fn sum_with(&self, pick: Pick, row: u8) -> i64
        requires there { pick.index < self.now.grid.places }
        requires next { self.now.part.opened ≤ pick.index + 1 }
        requires row { row ≤ greatest_row }
        ensures { result ≡ part_total (chosen_from self.now) row (pick.version ∷ above self.now pick.index) }
    {
        let so_far = self.sums[pick.index + 1].rows[usize::from(row)];
        self.joined(pick, row, so_far)
    }

    // The same of every row.
    pub(super) fn sums_with(&self, pick: Pick) -> RowSums
        requires there { pick.index < self.now.grid.places }
        requires next { self.now.part.opened ≤ pick.index + 1 }
        ensures { Totals (chosen_from self.now) (pick.version ∷ above self.now pick.index) result }
    {
        RowSums {
            rows: array::from_fn(|row| self.sum_with(pick, row as u8)),
        }
    }

    // A place takes a version, and those below it are open.
    pub(super) fn set(&mut self, pick: Pick)
        requires there { pick.index < self.old.grid.places }
        requires next { self.old.part.opened ≤ pick.index + 1 }
        ensures opened { self.new.part.opened ≡ pick.index }
        ensures versions { self.new.part.versions ≡ slice_set self.old.part.versions pick.index pick.version }
        ensures part { part_in self.new self.new.part ≡ pick.version ∷ above self.old pick.index }
        ensures kept { SameBut self.new self.old }
    {
        self.sums[pick.index] = self.sums_with(pick);
        self.part = self.part.with(pick);
    }
}
