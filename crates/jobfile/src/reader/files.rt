// A whole file.
ghost use Rattle.std.specs.Prelude.{◌≡◌, ◌≤◌, length, drop, IfOk, OnOk};
ghost use Rattle.jobfile.specs.Bounds.{most_bytes};
ghost use Rattle.jobfile.specs.Sound.{Tables};
ghost use Rattle.jobfile.specs.Reading.{finish, fresh, read_fields};

use crate::checks::fault_at;
use crate::fields::Section;
use crate::job::Job;
use crate::reader::Reader;
use catalogue::Catalogue;
use rules::{Fault, Refusal};

impl<'a> Reader<'a> {
    ghost use Rattle.jobfile.specs.Readers.{front_of};

    // A reader at the front of a file.
    pub(crate) fn new(file: &'a [u8]) -> Reader<'a>
        requires { length file.now ≤ most_bytes }
        ensures file { result.file.now ≡ file.now }
        ensures at { result.at ≡ 0 }
        ensures front { front_of result ≡ fresh }
    {
        Reader {
            file,
            at: 0,
            section: Section::Start,
            rows: 0,
            job: Job::begun(file.len(), 0, 0, 0),
        }
    }
}

impl Reader<'_> {
    ghost use Rattle.jobfile.specs.Jobs.{says};
    ghost use Rattle.jobfile.specs.Readers.{AtEnd, front_of, told};

    // Every field from where the reader is.
    pub(crate) fn read_fields(&mut self) -> Result<(), Fault>
        ensures fields { told result (front_of self.new) ≡ read_fields (length self.old.file.now) (front_of self.old) (drop self.old.at self.old.file.now) self.old.at }
        ensures end { OnOk result (AtEnd self.old.file.now self.new) }
    {
        // Not `for`: only the field just read says where the next begins.
        while usize::from(self.at) < self.file.len() {
            self.read_field()?;
        }
        Ok(())
    }

    // At the end of the file: the order has come, and each place has its versions.
    pub(crate) fn finish(self) -> Result<Job, Fault>
        ensures job { says self.entry.file.now result ≡ finish (front_of self.entry) self.entry.at }
        ensures tables { IfOk result (Tables self.entry.file.now) }
    {
        if matches!(self.section, Section::Start | Section::Rows) {
            return Err(fault_at(Refusal::TagNotAllowed, self.at));
        }
        let found = self.job.listing.places() + self.job.ladder.places();
        if found != self.job.sheet.places {
            return Err(Fault {
                place: found,
                row: self.job.sheet.last_row + 1,
                ..fault_at(Refusal::CountsDiffer, 0)
            });
        }
        Ok(self.job)
    }
}
