// Why a line or a ground isn't put in.
ghost use Rattle.std.specs.Prelude.{Some};
ghost use Rattle.ledger.specs.Answers.{unheld_text};

use std::error::Error;
use std::fmt;

#[derive(Clone, Copy, Debug, PartialEq, Eq)]
pub enum Unheld {
    // The ledger has no space for one ground more, or for its lines.
    NoSpace,
    // A line is none that the tables hold.
    FarLine,
}

impl fmt::Display for Unheld {
    ghost output = { λ unheld. Some (unheld_text unheld) };

    fn fmt<W: fmt::Write>(&self, f: &mut fmt::Formatter<W>) -> fmt::Result {
        f.write_str(match self {
            Unheld::NoSpace => "the ledger has no space for the ground",
            Unheld::FarLine => "a line that no table holds",
        })
    }
}

impl Error for Unheld {}
