// A closed job that is lent.
ghost use Rattle.std.specs.Prelude.{◌≡◌, IfOk, IfSome, false, if◌then◌else◌, None, Some};
ghost use Rattle.std.specs.Option.{option_map};
ghost use Rattle.rules.specs.KeptJobs.{verdict_told};
ghost use Rattle.chooser.specs.States.{kept_of};
ghost use Rattle.chooser.specs.Verdicts.{verdict_in, PricesRight};

use crate::job::Job;
use crate::verdicts::{Seen, seen};
use catalogue::Catalogue;
use rules::Fault;

// A job that takes records in its place is not moved, so that it is looked at in the type of its state by this: of a job with a
// running search there is none.
#[derive(Drop)]
pub struct ClosedView<'a, C: Catalogue> {
    pub(crate) job: &'a Job<C>,
    ghost closed: { job.now.running ≡ false },
}

impl<C: Catalogue> Job<C> {
    // The job, if it is closed.
    pub fn as_closed(&self) -> Option<ClosedView<'_, C>>
        ensures { option_map (λ view. view.job.now) result ≡ if self.now.running then None else Some self.now }
    {
        if self.running {
            None
        } else {
            Some(ClosedView { job: self })
        }
    }
}

impl<C: Catalogue> ClosedView<'_, C> {
    // The verdict on the last search, or none while the job is unsearched.
    pub fn verdict(&self) -> Result<Option<Seen>, Fault>
        ensures told { verdict_in result ≡ verdict_told self.now.job.now.sheet (kept_of self.now.job.now) }
        ensures prices { IfOk result (λ verdict. IfSome verdict (λ v. PricesRight (C.Catalogue.meaning self.now.job.now.catalogue) self.now.job.now.sheet v.says)) }
    {
        let job = self.job;
        match &job.opened {
            Ok(opened) => {
                let verdict = opened.verdict.as_ref();
                Ok(verdict.map(|verdict| seen(&job.sheet, &job.catalogue, verdict)))
            }
            Err(fault) => Err(*fault),
        }
    }
}
