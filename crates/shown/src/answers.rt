// The text of an answer.
ghost use Rattle.std.specs.Prelude.{Some};
ghost use Rattle.shown.specs.Texts.{answer_text};

use crate::numbers::FirstNumbers;
use exhaustive::Found;
use rules::Refusal;
use std::fmt;

// The answer to a sheet with so many places: the least price and the versions by place, or none, or why the sheet is
// refused. The count is the sheet's: what was found keeps a whole table, since it is copied.
#[derive(Drop)]
pub struct AnswerText {
    pub places: u8,
    pub answer: Result<Option<Found>, Refusal>,
}

impl fmt::Display for AnswerText {
    ghost output = { λ text. Some (answer_text text.places text.answer) };

    fn fmt<W: fmt::Write>(&self, f: &mut fmt::Formatter<W>) -> fmt::Result {
        match &self.answer {
            Ok(Some(found)) => {
                let versions = FirstNumbers {
                    count: self.places,
                    table: &found.versions,
                };
                write!(f, "LEAST {}{versions}", found.price)
            }
            Ok(None) => write!(f, "NONE"),
            Err(refusal) => write!(f, "{refusal}"),
        }
    }
}
