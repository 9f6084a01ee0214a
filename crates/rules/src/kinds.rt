// The kinds of rows.
ghost use Rattle.std.specs.Prelude.{◌≡◌};
ghost use Rattle.rules.specs.Joinings.{kind_number};
ghost use Rattle.rules.specs.Refusals.{kind_read};

use crate::refusals::Refusal;

// How the amounts of a row come to a total, and on which side of its limit the total has to stay. A kind goes by its
// number in sheets and files.
#[derive(Clone, Copy, Debug, PartialEq, Eq)]
pub enum Kind {
    // The amounts are added, and the greater total is worse.
    SumAtMost = 1,
    // The amounts are added, and the less total is worse.
    SumAtLeast = 2,
    // The greatest amount counts, and the greater is worse.
    GreatestAtMost = 3,
}

impl Kind {
    // The number that stands for the kind in a sheet.
    pub fn number(self) -> u8
        ensures { result ≡ kind_number self }
    {
        self as u8
    }
}

// The kind that a number stands for; a number that stands for none is refused.
impl TryFrom<u8> for Kind {
    type Error = Refusal;

    ghost try_from_gives = { λ number kind. kind ≡ kind_read number };

    fn try_from(number: u8) -> Result<Kind, Refusal> {
        match number {
            1 => Ok(Kind::SumAtMost),
            2 => Ok(Kind::SumAtLeast),
            3 => Ok(Kind::GreatestAtMost),
            _ => Err(Refusal::UnknownKind),
        }
    }
}
