// The table of a draft.
ghost use Rattle.std.specs.Prelude.{◌≡◌, true};
ghost use Rattle.ledger.specs.Lines.{AllNear};
ghost use Rattle.ledger.specs.Places.{rising};

use arrayvec::ArrayVec;
use rules::{Line, MOST_PLACES, MOST_ROWS};

// A line for each row and level that there can be.
const MOST_DRAFTED: usize = MOST_ROWS * (MOST_PLACES + 1);

// A ground as it is learned: its lines by row and then level, no row and level twice.
#[derive(Drop)]
pub struct Draft {
    lines: ArrayVec<Line, MOST_DRAFTED>,
    ghost near: { AllNear lines.items },
    ghost ordered: { rising lines.items ≡ true },
}

mod calls;
