// How the amounts of a row are joined, and its lines compared and learned.
ghost use Rattle.std.specs.Prelude.{◌≡◌, ◌+◌, ◌≤◌, ◌*◌, Option, IfSome, unsigned_abs};
ghost use Rattle.rules.specs.Bounds.{most_places, greatest_row, greatest_amount};
ghost use Rattle.rules.specs.Grounds.{with_amount, with_line};
ghost use Rattle.ledger.specs.Drafted.{drafted};
ghost use Rattle.ledger.specs.Lines.{Near, reach};
ghost use Rattle.search.specs.Settings.{setting};
ghost use Rattle.search.specs.States.{moved_with};
ghost use Rattle.search.specs.Sums.{joined_onto};

use crate::grid::Grid;
use crate::lines::{NearLine, RowIn};
use crate::pick::Pick;
use joining::Joining;
use ledger::Draft;
use rules::Line;
use std::marker::PhantomData;

impl<'g, J: Joining> RowIn<'g, J> {
    // A row that has the joining.
    pub(crate) fn new(grid: &'g Grid, row: u8) -> RowIn<'g, J>
        requires there { row ≤ greatest_row }
        requires joined { (setting grid.now).joining row ≡ J.rule }
        ensures grid { result.grid.now ≡ grid.now }
        ensures row { result.row ≡ row }
    {
        RowIn {
            grid,
            row,
            joining: PhantomData,
        }
    }

    // The unit, which is what no amounts come to.
    pub(crate) fn unit(&self) -> i64
        ensures { result ≡ J.rule.unit }
    {
        J::UNIT
    }

    // A constant with the amount of a picked version joined on.
    pub(crate) fn with_amount(&self, pick: Pick, constant: i64) -> i64
        requires near { unsigned_abs constant ≤ reach (most_places + most_places) }
        ensures is { result ≡ with_amount (setting self.now.grid.now) self.now.row (pick.index + 1) pick.version constant }
        ensures near { unsigned_abs result ≤ unsigned_abs constant + greatest_amount }
    {
        J::join(constant, self.grid.amount(self.row, pick))
    }

    // Whether a constant, joined with what the amounts above it come to, is worse than a limit. Above the top level there are none.
    pub(crate) fn breaks(&self, constant: i64, above: Option<i64>, limit: i64) -> bool
        requires near { unsigned_abs constant ≤ reach most_places }
        requires near_above { IfSome above (λ sum. unsigned_abs sum ≤ reach most_places) }
        ensures { result ≡ J.rule.worse (joined_onto J.rule constant above) limit }
    {
        let joined = match above {
            Some(sum) => J::join(constant, sum),
            None => constant,
        };
        J::is_worse(joined, limit)
    }

    // A line of the row as it is learned from a ground that stands with a picked version.
    fn moved(&self, pick: Pick, near: NearLine) -> Line
        requires { near.line.row ≡ self.now.row }
        ensures is { result ≡ moved_with (setting self.now.grid.now) pick near.line }
        ensures near { Near result }
    {
        let line = near.line;
        if usize::from(line.level) != pick.index {
            return line;
        }
        Line {
            row: line.row,
            level: line.level + 1,
            constant: self.with_amount(pick, line.constant),
        }
    }

    // Adds a line of the row to a draft as it is learned.
    pub(crate) fn put_moved(&self, draft: &mut Draft, pick: Pick, near: NearLine)
        requires { near.line.row ≡ self.now.row }
        ensures { let S = setting self.now.grid.now in drafted draft.new ≡ with_line S (moved_with S pick near.line) (drafted draft.old) }
    {
        let Ok(()) = draft.put::<J>(self.moved(pick, near)) else {
            unreachable()
        };
    }
}
