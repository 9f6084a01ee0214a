// The tables of a ledger.
ghost use Rattle.std.specs.Prelude.{◌≡◌, ◌≤◌, true, length};
ghost use Rattle.arrayvec.specs.ArrayVec.{array_vec_len};
ghost use Rattle.rules.specs.Bounds.{most_grounds, most_lines};
ghost use Rattle.ledger.specs.Lines.{AllNear};
ghost use Rattle.ledger.specs.Tables.{adjoin, Lowest};

use crate::records::GroundRecord;
use arrayvec::ArrayVec;
use rules::{Line, MOST_GROUNDS, MOST_LINES};

// The learned grounds, oldest first: a record for each, and the lines of all of them one after the other.
#[derive(Drop)]
pub struct Ledger {
    grounds: ArrayVec<GroundRecord, MOST_GROUNDS>,
    lines: ArrayVec<Line, MOST_LINES>,
    // A caller sees of a table its list alone, and not that its capacity bounds it.
    ghost few_grounds: { array_vec_len grounds ≤ most_grounds },
    ghost few_lines: { array_vec_len lines ≤ most_lines },
    ghost adjoin: { adjoin grounds.items 0 (length lines.items) ≡ true },
    ghost near: { AllNear lines.items },
    ghost lowest: { Lowest lines.items grounds.items },
}

mod reads;
mod writes;
