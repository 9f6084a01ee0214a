// One field after the other.
ghost use Rattle.std.specs.Prelude.{◌≡◌, ◌+◌, ◌≤◌, length, drop, OnOk};
ghost use Rattle.jobfile.specs.Reading.{read_rest, read_field};

use crate::checks::fault_at;
use crate::fields::Field;
use crate::reader::Reader;
use rules::{Fault, Refusal};

impl Reader<'_> {
    ghost use Rattle.jobfile.specs.Readers.{BodyRead, Due, InTurn, MovedOn, field_between, front_job, front_of, told};

    // The body of a field that is due.
    fn read_body(&mut self, field: Field, body: &[u8]) -> Result<(), Fault>
        requires { Due self.old field body.now }
        ensures { BodyRead self.old field body.now result self.new }
    {
        match field {
            Field::Sheet => self.read_sheet(body),
            Field::Row => self.read_row(body),
            Field::Order => self.read_order(body),
            Field::Version => self.read_version(body),
            Field::Ladder => self.read_ladder(body),
            Field::Call => self.read_call(body),
        }
    }

    // The rest of a field that comes next, once its length is known.
    fn read_rest(&mut self, field: Field, size: u16, rest: &[u8]) -> Result<(), Fault>
        requires turn { InTurn self.old field }
        requires rest { rest.now ≡ drop (self.old.at + 3) self.old.file.now }
        requires there { self.old.at + 3 ≤ length self.old.file.now }
        ensures field { told result (field_between self.old self.new) ≡ read_rest (front_job self.old) (record { field = field; section = self.old.section }) size rest.now self.old.at }
        ensures moved { OnOk result (MovedOn self.old.file.now self.old.at self.new) }
    {
        if size != self.length_of(field) {
            return Err(fault_at(Refusal::WrongLength, self.at));
        }
        let Some(body) = rest.get(..usize::from(size)) else {
            return Err(fault_at(Refusal::FieldCut, self.at));
        };
        self.read_body(field, body)
    }

    // The field where the reader is.
    pub(crate) fn read_field(&mut self) -> Result<(), Fault>
        ensures field { told result (field_between self.old self.new) ≡ read_field (front_of self.old) (drop self.old.at self.old.file.now) self.old.at }
        ensures moved { OnOk result (MovedOn self.old.file.now self.old.at self.new) }
    {
        let file = self.file;
        let [tag, hi, lo, rest @ ..] = &file[usize::from(self.at)..] else {
            return Err(fault_at(Refusal::FieldCut, self.at));
        };
        let field = self.advance(*tag)?;
        self.read_rest(field, u16::from_be_bytes([*hi, *lo]), rest)
    }
}
