// The calls on a closed job.
ghost use Rattle.std.specs.Prelude.{◌≡◌, IfOk, IfSome};
ghost use Rattle.rules.specs.Calls.{change, clear, begin_search};
ghost use Rattle.rules.specs.Openings.{opening};
ghost use Rattle.rules.specs.Settings.{setting};
ghost use Rattle.rules.specs.KeptJobs.{opened_with, fault_of, limit_told, verdict_told, told_on, job_by};
ghost use Rattle.chooser.specs.Models.{bare};
ghost use Rattle.chooser.specs.States.{kept_of};
ghost use Rattle.chooser.specs.Verdicts.{verdict_in, PricesRight};

use crate::closed::ClosedJob;
use crate::job::Job;
use crate::requests::Call;
use crate::running::RunningJob;
use crate::verdicts::Seen;
use crate::view::ClosedView;
use catalogue::Catalogue;
use rules::{Fault, Sheet};

impl<C: Catalogue> ClosedJob<C> {
    // Opens a job with a sheet and a catalogue. A fault found there stays with the job.
    pub fn open(sheet: Sheet, catalogue: C) -> ClosedJob<C>
        ensures job { kept_of result.job ≡ opened_with sheet (opening (C.Catalogue.meaning catalogue) sheet) }
        ensures sheet { result.job.sheet ≡ sheet }
        ensures catalogue { result.job.catalogue ≡ catalogue }
    {
        ClosedJob {
            job: Job::open(sheet, catalogue),
        }
    }

    // Replaces the limit of a row, that of row 0 being the price cap; the job is unsearched then.
    pub fn change_limit(&mut self, row: u8, limit: i32) -> Result<(), Fault>
        ensures told { result ≡ bare (told_on (setting (C.Catalogue.meaning self.old.job.catalogue) self.old.job.sheet) (kept_of self.old.job) (change row limit)) }
        ensures job { kept_of self.new.job ≡ job_by (setting (C.Catalogue.meaning self.old.job.catalogue) self.old.job.sheet) (kept_of self.old.job) (change row limit) }
        ensures sheet { self.new.job.sheet ≡ self.old.job.sheet }
        ensures catalogue { self.new.job.catalogue ≡ self.old.job.catalogue }
    {
        self.job.make(Call::Change(row, limit)).map(|_| ())
    }

    // Drops all learned grounds; the job is unsearched then.
    pub fn clear(&mut self) -> Result<(), Fault>
        ensures told { result ≡ bare (told_on (setting (C.Catalogue.meaning self.old.job.catalogue) self.old.job.sheet) (kept_of self.old.job) clear) }
        ensures job { kept_of self.new.job ≡ job_by (setting (C.Catalogue.meaning self.old.job.catalogue) self.old.job.sheet) (kept_of self.old.job) clear }
        ensures sheet { self.new.job.sheet ≡ self.old.job.sheet }
        ensures catalogue { self.new.job.catalogue ≡ self.old.job.catalogue }
    {
        self.job.make(Call::Clear).map(|_| ())
    }

    // Begins a search with the learned grounds that the job holds. A job with a fault answers it, and is a running one all the same.
    pub fn search(self) -> (RunningJob<C>, Result<(), Fault>)
        ensures told { result.1 ≡ bare (told_on (setting (C.Catalogue.meaning self.job.catalogue) self.job.sheet) (kept_of self.job) begin_search) }
        ensures job { kept_of result.0.job ≡ job_by (setting (C.Catalogue.meaning self.job.catalogue) self.job.sheet) (kept_of self.job) begin_search }
        ensures sheet { result.0.job.sheet ≡ self.job.sheet }
        ensures catalogue { result.0.job.catalogue ≡ self.job.catalogue }
    {
        let mut job = self.job;
        let told = job.make(Call::Search).map(|_| ());
        (RunningJob { job }, told)
    }

    // The job, to take the calls of records.
    pub fn into_job(self) -> Job<C>
        ensures { result ≡ self.job }
    {
        let ClosedJob { job } = self;
        job
    }

    // The fault of the opening, if it found one.
    pub fn fault(&self) -> Option<Fault>
        ensures { result ≡ fault_of (kept_of self.now.job) }
    {
        self.job.fault()
    }

    // The limit in force on a row, that of row 0 being the price cap.
    pub fn limit(&self, row: u8) -> Result<i64, Fault>
        ensures { result ≡ limit_told self.now.job.sheet (kept_of self.now.job) row }
    {
        self.job.limit(row)
    }

    // The verdict on the last search, or none while the job is unsearched.
    pub fn verdict(&self) -> Result<Option<Seen>, Fault>
        ensures told { verdict_in result ≡ verdict_told self.now.job.sheet (kept_of self.now.job) }
        ensures prices { IfOk result (λ verdict. IfSome verdict (λ v. PricesRight (C.Catalogue.meaning self.now.job.catalogue) self.now.job.sheet v.says)) }
    {
        ClosedView { job: &self.job }.verdict()
    }
}
