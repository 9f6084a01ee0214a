// How a closing ground is kept and read.
ghost use Rattle.std.specs.Prelude.{◌≡◌, take};
ghost use Rattle.rules.specs.Bounds.{most_rows};
ghost use Rattle.search.specs.Closings.{closing_of};

use crate::closing::Closing;
use rules::{Line, MOST_ROWS};

impl Closing {
    // The first lines of a ground, as many as there can be rows.
    pub(crate) fn of(ground: &[Line]) -> Closing
        ensures { closing_of result ≡ take most_rows ground.now }
    {
        let mut lines = [Line::default(); MOST_ROWS];
        let count = ground.len().min(MOST_ROWS);
        lines[..count].copy_from_slice(&ground[..count]);
        Closing { lines, count }
    }

    // The lines.
    pub fn lines(&self) -> &[Line]
        ensures { result.now ≡ closing_of self.now }
    {
        &self.lines[..self.count]
    }
}
