// The section that follows, and the length of a field.
ghost use Rattle.std.specs.Prelude.{◌≡◌, IfOk, MatchResult, Some, None};
ghost use Rattle.rules.specs.Refusals.{fault_in};
ghost use Rattle.rules.specs.declared.refusals.Refusal.TheVariants.{TagNotAllowed};
ghost use Rattle.jobfile.specs.Writing.{field_length};
ghost use Rattle.jobfile.specs.Reading.{announced_with};

use crate::checks::fault_at;
use crate::fields::{Field, Section};
use crate::reader::Reader;
use rules::{Fault, Refusal};

impl Reader<'_> {
    ghost use Rattle.jobfile.specs.Readers.{InTurn, SameButSection, front_job};

    // The field that a tag announces, the section after it being entered; or the tag isn't allowed here.
    pub(crate) fn advance(&mut self, tag: u8) -> Result<Field, Fault>
        ensures field { MatchResult result (λ f. announced_with self.old.rows self.old.job.sheet.last_row self.old.section tag ≡ Some (record { field = f; section = self.new.section })) (λ e. (announced_with self.old.rows self.old.job.sheet.last_row self.old.section tag ≡ None) × (e ≡ fault_in TagNotAllowed self.old.at 0 0 0)) }
        ensures kept { SameButSection self.old self.new }
        ensures turn { IfOk result (InTurn self.new) }
    {
        Ok(match (self.section, tag) {
            (Section::Start, 1) => {
                self.section = Section::Rows;
                Field::Sheet
            }
            (Section::Rows, 2) if self.rows < self.job.sheet.last_row => Field::Row,
            (Section::Rows, 3) if self.rows == self.job.sheet.last_row => {
                self.section = Section::Versions;
                Field::Order
            }
            (Section::Versions, 4) => Field::Version,
            (Section::Versions | Section::Ladders, 5) => {
                self.section = Section::Ladders;
                Field::Ladder
            }
            (Section::Versions | Section::Ladders | Section::Calls, 6) => {
                self.section = Section::Calls;
                Field::Call
            }
            _ => return Err(fault_at(Refusal::TagNotAllowed, self.at)),
        })
    }

    // The length of a field's body.
    pub(crate) fn length_of(&self, field: Field) -> u16
        ensures { result ≡ field_length (front_job self.now) field }
    {
        match field {
            Field::Sheet | Field::Call => 6,
            Field::Row => 5,
            Field::Order => u16::from(self.job.sheet.places),
            Field::Version => 5 + 4 * u16::from(self.job.sheet.last_row),
            Field::Ladder => 10 + 8 * u16::from(self.job.sheet.last_row),
        }
    }
}
