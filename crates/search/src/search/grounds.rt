// The grounds by their index: the starting ground of each row in turn, and then the learned ones.
ghost use Rattle.std.specs.Prelude.{◌≡◌, [], length, slice_index_or};
ghost use Rattle.ledger.specs.Lines.{AllNear};
ghost use Rattle.ledger.specs.Tables.{lowest_level};
ghost use Rattle.search.specs.Listed.{lines_of};
ghost use Rattle.search.specs.States.{grounds};

use crate::search::Search;
use rules::Line;

// The ground of a row has a single line, which no table holds.
#[derive(Drop)]
pub(super) enum Ground<'a> {
    Starting([Line; 1]),
    Learned(&'a [Line]),
}

impl Ground<'_> {
    // The lines.
    pub(super) fn lines(&self) -> &[Line]
        ensures { result.now ≡ lines_of self.now }
    {
        match self {
            Ground::Starting(line) => line,
            Ground::Learned(lines) => lines,
        }
    }
}

impl Search {
    // How many grounds there are.
    pub(super) fn ground_count(&self) -> usize
        ensures { result ≡ length (grounds self.now) }
    {
        self.grid.last_row() + 1 + self.ledger.count()
    }

    // The ground at an index; it has no line past the last one.
    pub(super) fn ground(&self, index: usize) -> Ground<'_>
        ensures lines { lines_of result ≡ slice_index_or (grounds self.now) index [] }
        ensures near { AllNear (lines_of result) }
    {
        let last = self.grid.last_row();
        if index <= last {
            Ground::Starting([self.starting_line(index as u8).line])
        } else {
            Ground::Learned(self.ledger.ground(index - last - 1))
        }
    }

    // The lowest level of the ground at an index.
    pub(super) fn lowest_level(&self, index: usize) -> usize
        ensures { result ≡ lowest_level (slice_index_or (grounds self.now) index []) }
    {
        let last = self.grid.last_row();
        if index <= last {
            0
        } else {
            usize::from(self.ledger.lowest_level(index - last - 1))
        }
    }
}
