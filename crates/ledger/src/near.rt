// Lines that the tables hold.
ghost use Rattle.std.specs.Prelude.{◌≡◌};
ghost use Rattle.ledger.specs.Lines.{near, all_near};

use rules::{AMOUNT_REACH, GREATEST_AMOUNT, GREATEST_ROW, Line, MOST_PLACES};

// Whether a line is one that the tables hold.
pub(crate) fn is_near(line: Line) -> bool
    ensures { result ≡ near line }
{
    usize::from(line.row) <= GREATEST_ROW
        && usize::from(line.level) <= MOST_PLACES
        && line.constant.unsigned_abs() <= AMOUNT_REACH + u64::from(line.level) * GREATEST_AMOUNT
}

// Whether each line of a ground is one that the tables hold.
pub(crate) fn are_near(ground: &[Line]) -> bool
    ensures { result ≡ all_near ground.now }
{
    ground.iter().all(|line| is_near(*line))
}
