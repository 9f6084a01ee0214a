// The bodies of version and ladder fields.
ghost use Rattle.std.specs.Prelude.{◌≡◌, OnOk};
ghost use Rattle.jobfile.specs.InMemory.{version_added, with_version};
ghost use Rattle.jobfile.specs.declared.fields.Field.TheVariants as field;

use crate::bodies::LadderBody;
use crate::checks::check_version;
use crate::reader::{Reader, behind};
use catalogue::{Catalogue, Listing};
use rules::{Fault, Refusal};

// One version more of a place: of the next one, whose field begins at a byte, or of the last one.
fn add_version(listing: &mut Listing, place: u8, start: usize) -> Result<(), Refusal>
    ensures told { result ≡ version_added listing.old.end listing.old.rows listing.old.places.items place start }
    ensures end { listing.new.end ≡ listing.old.end }
    ensures rows { listing.new.rows ≡ listing.old.rows }
    ensures added { OnOk result (listing.new.places.items ≡ with_version listing.old.places.items place start) }
{
    if place > listing.places() {
        listing.add_place(start)
    } else {
        listing.add_version()
    }
}

impl Reader<'_> {
    ghost use Rattle.jobfile.specs.Readers.{Due, BodyRead};

    // A version of the last listed place, or the first of the next one.
    pub(crate) fn read_version(&mut self, body: &[u8]) -> Result<(), Fault>
        requires { Due self.old field.Version body.now }
        ensures { BodyRead self.old field.Version body.now result self.new }
    {
        let place = body[0];
        let listed = self.job.listing.places();
        let has = self.job.listing.versions(place);
        check_version(&self.job.sheet, listed, has, body, self.at)?;
        let Ok(()) = add_version(&mut self.job.listing, place, usize::from(self.at)) else {
            unreachable()
        };
        self.at = behind(self.at, body);
        Ok(())
    }

    // A ladder of the next place.
    pub(crate) fn read_ladder(&mut self, body: &[u8]) -> Result<(), Fault>
        requires { Due self.old field.Ladder body.now }
        ensures { BodyRead self.old field.Ladder body.now result self.new }
    {
        // As in `finish`: a method of the job would state once more that the sum is a byte.
        let found = self.job.listing.places() + self.job.ladder.places();
        let ladder = LadderBody::new(self.job.sheet.last_row, body);
        ladder.check(self.job.sheet.places, found, self.at)?;
        let Ok(()) = self.job.ladder.add(ladder.count, ladder.rungs) else {
            unreachable()
        };
        self.at = behind(self.at, body);
        Ok(())
    }
}
