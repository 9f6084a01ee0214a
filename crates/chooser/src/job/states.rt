// A job in the type of its state.
ghost use Rattle.std.specs.Prelude.{◌≡◌};
ghost use Rattle.chooser.specs.InStates.{job_in};

use crate::closed::ClosedJob;
use crate::job::Job;
use crate::running::RunningJob;
use catalogue::Catalogue;

// A closed job, or one with a running search.
#[derive(Drop)]
pub enum State<C: Catalogue> {
    Closed(ClosedJob<C>),
    Running(RunningJob<C>),
}

impl<C: Catalogue> Job<C> {
    // The job in the type of its state.
    pub fn state(self) -> State<C>
        ensures { job_in result ≡ self }
    {
        if self.running {
            State::Running(RunningJob { job: self })
        } else {
            State::Closed(ClosedJob { job: self })
        }
    }
}
