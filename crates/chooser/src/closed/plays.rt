// Lists of call records.
ghost use Rattle.std.specs.Prelude.{◌≡◌, List};
ghost use Rattle.rules.specs.Histories.{Entry};
ghost use Rattle.rules.specs.Settings.{setting};
ghost use Rattle.rules.specs.KeptJobs.{CameBy};
ghost use Rattle.rules.specs.Records.{all_answered, job_after_all, Lawful};
ghost use Rattle.chooser.specs.States.{kept_of};

use crate::closed::ClosedJob;
use catalogue::Catalogue;
use rules::CallRecord;

impl<C: Catalogue> ClosedJob<C> {
    // Takes the requests of a list of records, one after the other, and gives each record its own answer: 0, or the number of the refusal.
    // The rest of each record stays, and a search that is still running after the last is closed.
    pub fn play(self, records: &mut [CallRecord]) -> ClosedJob<C>
        ensures records { records.new ≡ all_answered (setting (C.Catalogue.meaning self.job.catalogue) self.job.sheet) (kept_of self.job) records.old }
        ensures job { kept_of result.job ≡ job_after_all (setting (C.Catalogue.meaning self.job.catalogue) self.job.sheet) (kept_of self.job) records.old }
        ensures sheet { result.job.sheet ≡ self.job.sheet }
        ensures catalogue { result.job.catalogue ≡ self.job.catalogue }
        ensures lawful { (before : List Entry) → CameBy (C.Catalogue.meaning self.job.catalogue) self.job.sheet before (kept_of self.job) → Lawful (C.Catalogue.meaning self.job.catalogue) self.job.sheet before records.new (kept_of result.job) }
    {
        let mut job = self.job;
        for record in records.iter_mut() {
            record.answer = job.take(record.request);
        }
        job.closed()
    }
}
