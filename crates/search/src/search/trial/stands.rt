// Which grounds stand.
ghost use Rattle.std.specs.Prelude.{◌≡◌, ◌<◌, ◌≤◌, [], length, drop, IfSome, slice_index_or};
ghost use Rattle.ledger.specs.Lines.{AllNear};
ghost use Rattle.rules.specs.Bounds.{greatest_row};
ghost use Rattle.search.specs.Parts.{versions_of};
ghost use Rattle.search.specs.Sums.{total_above};
ghost use Rattle.search.specs.States.{chosen_from, grounds, picked};
ghost use Rattle.search.specs.Trials.{line_holds, holds, first_at};

use crate::lines::NearLine;
use crate::search::trial::Trial;
use rules::Line;

impl Trial<'_> {
    // What the amounts of a row above a level come to; above the top level there are none.
    fn above(&self, level: usize, row: u8) -> Option<i64>
        requires open { self.now.part.opened ≤ level }
        requires row { row ≤ greatest_row }
        ensures { let s = self.now.search.now in result ≡ total_above (chosen_from s) row (drop level (versions_of s.grid.places self.now.part)) }
    {
        let row = usize::from(row);
        if level >= self.search.grid.places() {
            None
        } else if level == self.part.opened() {
            Some(self.totals.rows[row])
        } else {
            Some(self.search.sums[level].rows[row])
        }
    }

    // A line stands when its level is at least the number of open places, and what it comes to is worse than the limit of its row.
    fn line_stands(&self, near: NearLine) -> bool
        ensures { result ≡ line_holds self.now near.line }
    {
        let level = usize::from(near.line.level);
        self.part.opened() <= level
            && self
                .search
                .breaks_limit(near, self.above(level, near.line.row))
    }

    // A ground stands when each of its lines does: the loop is left at the first that doesn't.
    fn lines_stand(&self, ground: &[Line]) -> bool
        requires { AllNear ground.now }
        ensures { result ≡ holds self.now ground.now }
    {
        for line in ground {
            if !self.line_stands(NearLine { line: *line }) {
                return false;
            }
        }
        true
    }

    // Whether the ground at an index stands; if its lowest level is that of an open place it doesn't, whatever its lines.
    pub(crate) fn ground_stands(&self, index: usize) -> bool
        ensures { result ≡ holds self.now (slice_index_or (grounds self.now.search.now) index []) }
    {
        self.part.opened() <= self.search.lowest_level(index)
            && self.lines_stand(self.search.ground(index).lines())
    }

    // The first ground that stands, by its index.
    pub(crate) fn first_standing(&self) -> Option<usize>
        ensures first { picked (grounds self.now.search.now) result ≡ first_at self.now (grounds self.now.search.now) }
        ensures there { IfSome result (λ i. i < length (grounds self.now.search.now)) }
    {
        (0..self.search.ground_count()).find(|index| self.ground_stands(*index))
    }
}
