// A job with a running search.
ghost use Rattle.std.specs.Prelude.{◌≡◌, true};

use crate::job::Job;
use catalogue::Catalogue;

#[derive(Drop)]
pub struct RunningJob<C: Catalogue> {
    pub(crate) job: Job<C>,
    ghost running: { job.running ≡ true },
}

mod calls;
