// What a job is asked.
ghost use Rattle.std.specs.Prelude.{◌≡◌};
ghost use Rattle.rules.specs.KeptJobs.{fault_of, limit_told};
ghost use Rattle.chooser.specs.States.{kept_of};

use crate::job::Job;
use catalogue::Catalogue;
use rules::{Fault, Refusal};

impl<C: Catalogue> Job<C> {
    // The fault of the opening, if it found one.
    pub(crate) fn fault(&self) -> Option<Fault>
        ensures { result ≡ fault_of (kept_of self.now) }
    {
        match &self.opened {
            Ok(_) => None,
            Err(fault) => Some(*fault),
        }
    }

    // Whether a search is running.
    pub fn is_running(&self) -> bool
        ensures { result ≡ self.now.running }
    {
        self.running
    }

    // The limit in force on a row, that of row 0 being the price cap.
    pub(crate) fn limit(&self, row: u8) -> Result<i64, Fault>
        ensures { result ≡ limit_told self.now.sheet (kept_of self.now) row }
    {
        match &self.opened {
            Ok(opened) if row <= self.sheet.last_row => Ok(opened.search.limit(row)),
            Ok(_) => Err(Fault::from(Refusal::NoSuchRow)),
            Err(fault) => Err(*fault),
        }
    }
}
