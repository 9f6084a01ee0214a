// How a job takes the calls of records.
ghost use Rattle.std.specs.Prelude.{◌≡◌};
ghost use Rattle.rules.specs.Settings.{setting};
ghost use Rattle.rules.specs.Records.{answer_to, job_after, closed_job};
ghost use Rattle.chooser.specs.Models.{fault_or, number_told};
ghost use Rattle.chooser.specs.Requests.{turned_by};
ghost use Rattle.chooser.specs.States.{kept_of};

use crate::closed::ClosedJob;
use crate::job::Job;
use crate::opened::Made;
use crate::requests::{Call, asked_for};
use catalogue::Catalogue;
use rules::{Fault, Refusal, Request};

// The number that a record is given for what its call was told.
fn number_of(told: Result<Made, Fault>) -> u8
    ensures { result ≡ number_told told }
{
    match told {
        Ok(_) => 0,
        Err(fault) => fault.number,
    }
}

impl<C: Catalogue> Job<C> {
    // The fault of the job, or that of a refusal where it has none.
    fn fault_or(&self, refusal: Refusal) -> Fault
        ensures { result ≡ fault_or (kept_of self.now) refusal }
    {
        match self.fault() {
            Some(fault) => fault,
            None => Fault::from(refusal),
        }
    }

    // Takes the request of a record, and gives its answer: 0, or the number of the refusal. A job with a fault answers its number and
    // alters nothing but whether a search is running: the request for a search begins one, that for a close ends it.
    pub fn take(&mut self, request: Request) -> u8
        ensures answer { result ≡ answer_to (setting (C.Catalogue.meaning self.old.catalogue) self.old.sheet) (kept_of self.old) request }
        ensures job { kept_of self.new ≡ job_after (setting (C.Catalogue.meaning self.old.catalogue) self.old.sheet) (kept_of self.old) request }
        ensures running { self.new.running ≡ turned_by self.old.running request }
        ensures sheet { self.new.sheet ≡ self.old.sheet }
        ensures catalogue { self.new.catalogue ≡ self.old.catalogue }
    {
        match asked_for(request) {
            Some(call) => number_of(self.make(call)),
            None => self.fault_or(Refusal::NoCall).number,
        }
    }

    // Closes a search that is still running.
    pub fn closed(self) -> ClosedJob<C>
        ensures job { kept_of result.job ≡ closed_job (setting (C.Catalogue.meaning self.catalogue) self.sheet) (kept_of self) }
        ensures sheet { result.job.sheet ≡ self.sheet }
        ensures catalogue { result.job.catalogue ≡ self.catalogue }
    {
        let mut job = self;
        if job.running {
            let _ = job.make(Call::Close);
        }
        ClosedJob { job }
    }
}
