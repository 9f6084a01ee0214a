// A closed job.
ghost use Rattle.std.specs.Prelude.{◌≡◌, false};

use crate::job::Job;
use catalogue::Catalogue;

// A closed job and one with a running search are types of their own, so that a call which the state doesn't allow can't be written.
#[derive(Drop)]
pub struct ClosedJob<C: Catalogue> {
    pub(crate) job: Job<C>,
    ghost closed: { job.running ≡ false },
}

mod calls;
mod plays;
