// What comes next at a place.
ghost use Rattle.std.specs.Prelude.{◌≡◌};
ghost use Rattle.rules.specs.Search.{go_on};
ghost use Rattle.search.specs.States.{chosen_from, job_limits, state_of};
ghost use Rattle.search.specs.Nexts.{outcome_of, Ready};
ghost use Rattle.search.specs.Trials.{above_place};

use crate::next::{Next, Step};
use crate::search::place::Place;
use ledger::Draft;

impl Place<'_> {
    // The place takes its lowest free version; or a ground is learned, where there is space.
    pub(crate) fn go_on(&self, draft: &mut Draft) -> Next
        ensures outcome { let s = self.now.search.now in outcome_of s draft.new result ≡ go_on (chosen_from s) (job_limits s) (state_of s) (above_place self.now) }
        ensures ready { Ready self.now.search.now draft.new result }
    {
        let looked = self.look();
        match looked.free {
            Some(version) => Next::Makes(Step::Set(self.pick(version))),
            None => {
                self.learn(draft, looked.stopped);
                if self.search.ledger.has_room(draft.lines()) {
                    Next::Makes(Step::Learn(self.index))
                } else {
                    Next::Full
                }
            }
        }
    }
}
