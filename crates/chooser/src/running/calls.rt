// The calls on a job with a running search.
ghost use Rattle.std.specs.Prelude.{◌≡◌};
ghost use Rattle.rules.specs.Calls.{run as run_call, close as close_call};
ghost use Rattle.rules.specs.Settings.{setting};
ghost use Rattle.rules.specs.KeptJobs.{fault_of, told_on, job_by};
ghost use Rattle.chooser.specs.Models.{bare, ran_told};
ghost use Rattle.chooser.specs.States.{kept_of};

use crate::closed::ClosedJob;
use crate::job::Job;
use crate::opened::Made;
use crate::requests::Call;
use crate::running::RunningJob;
use catalogue::Catalogue;
use rules::Fault;
use search::Ran;

impl<C: Catalogue> RunningJob<C> {
    // Makes steps until the search has ended, is full, or the budget is used.
    pub fn run(&mut self, budget: i32) -> Result<Ran, Fault>
        ensures told { ran_told result ≡ told_on (setting (C.Catalogue.meaning self.old.job.catalogue) self.old.job.sheet) (kept_of self.old.job) (run_call budget) }
        ensures job { kept_of self.new.job ≡ job_by (setting (C.Catalogue.meaning self.old.job.catalogue) self.old.job.sheet) (kept_of self.old.job) (run_call budget) }
        ensures sheet { self.new.job.sheet ≡ self.old.job.sheet }
        ensures catalogue { self.new.job.catalogue ≡ self.old.job.catalogue }
    {
        match self.job.make(Call::Run(budget))? {
            Made::Ran(ran) => Ok(ran),
            Made::Done => unreachable(),
        }
    }

    // Ends the search with the verdict on it. A job with a fault answers it, and is a closed one all the same.
    pub fn close(self) -> (ClosedJob<C>, Result<(), Fault>)
        ensures told { result.1 ≡ bare (told_on (setting (C.Catalogue.meaning self.job.catalogue) self.job.sheet) (kept_of self.job) close_call) }
        ensures job { kept_of result.0.job ≡ job_by (setting (C.Catalogue.meaning self.job.catalogue) self.job.sheet) (kept_of self.job) close_call }
        ensures sheet { result.0.job.sheet ≡ self.job.sheet }
        ensures catalogue { result.0.job.catalogue ≡ self.job.catalogue }
    {
        let mut job = self.job;
        let told = job.make(Call::Close).map(|_| ());
        (ClosedJob { job }, told)
    }

    // The job, to take the calls of records.
    pub fn into_job(self) -> Job<C>
        ensures { result ≡ self.job }
    {
        let RunningJob { job } = self;
        job
    }

    // The fault of the opening, if it found one.
    pub fn fault(&self) -> Option<Fault>
        ensures { result ≡ fault_of (kept_of self.now.job) }
    {
        self.job.fault()
    }
}
