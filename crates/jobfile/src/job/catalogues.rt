// The catalogue of a job, which is made once its file is read.
ghost use Rattle.std.specs.Prelude.{◌≡◌};
ghost use Rattle.jobfile.specs.Jobs.{catalogue_meaning};

use crate::job::Job;
use catalogue::{Beside, Catalogue, Ladder, Listed, Listing};

impl Job {
    // The catalogue of a job by its parts: the listing over the bytes of its file, beside the ladder. By parts, so that the
    // sheet and the calls stay with the caller; and on its own, since a job borrows nothing.
    pub fn catalogue<'a>(
        file: &'a [u8],
        listing: Listing,
        ladder: Ladder,
    ) -> Beside<Listed<'a>, Ladder>
        ensures { ⟦<Beside<Listed<'a>, Ladder> as Catalogue>⟧.meaning result ≡ catalogue_meaning file.now listing ladder }
    {
        Beside::new(Listed::new(file, listing), ladder)
    }
}
