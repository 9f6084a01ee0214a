// What comes next in a search.
ghost use Rattle.std.specs.Prelude.{◌≡◌, ◌+◌, ◌<◌, ◌≤◌, length, IfSome, unsigned_abs};
ghost use Rattle.rules.specs.Bounds.{most_places};
ghost use Rattle.rules.specs.Grounds.{part_price};
ghost use Rattle.rules.specs.Search.{first_ground, go_on, next as named};
ghost use Rattle.ledger.specs.Lines.{reach};
ghost use Rattle.search.specs.States.{chosen_from, job_limits, grounds, picked, above, part_in, state_of};
ghost use Rattle.search.specs.Looks.{Passed, PassedAt};
ghost use Rattle.search.specs.Nexts.{outcome_of, Ready};

use crate::next::{Next, Step};
use crate::search::Search;
use crate::search::place::Place;
use crate::search::trial::Trial;
use ledger::Draft;

impl Search {
    // What the choice costs, no place being open.
    fn price(&self) -> i64
        requires { self.now.part.opened ≡ 0 }
        ensures is { result ≡ part_price (chosen_from self.now) (part_in self.now self.now.part) }
        ensures near { unsigned_abs result ≤ reach most_places }
    {
        self.sums[0].rows[0]
    }

    // The first ground that stands at the part-choice of the search, by its index.
    fn standing(&self) -> Option<usize>
        ensures first { picked (grounds self.now) result ≡ first_ground (chosen_from self.now) (job_limits self.now) (state_of self.now) (part_in self.now self.now.part) }
        ensures there { IfSome result (λ i. i < length (grounds self.now)) }
        ensures passed { IfSome result (Passed self.now (part_in self.now self.now.part)) }
    {
        let part = self.part;
        let trial = Trial {
            search: self,
            part,
            totals: self.sums[part.opened()],
        };
        trial.first_standing()
    }

    // What comes next at a place; with the version that it has no ground below an index stands.
    fn at_place(&self, index: usize, passed: usize, draft: &mut Draft) -> Next
        requires there { index < self.now.grid.places }
        requires next { self.now.part.opened ≤ index + 1 }
        requires passed { PassedAt self.now index passed }
        ensures outcome { outcome_of self.now draft.new result ≡ go_on (chosen_from self.now) (job_limits self.now) (state_of self.now) (above self.now index) }
        ensures ready { Ready self.now draft.new result }
    {
        let place = Place {
            search: self,
            index,
            passed,
        };
        place.go_on(draft)
    }

    // What comes next: with a ground standing, at the lowest place that is set, if one is; else the choice is the best, or the last open
    // place is to be set. A ground to be learned is put in the draft, which is large and so is lent.
    pub(super) fn next(&self, draft: &mut Draft) -> Next
        ensures outcome { outcome_of self.now draft.new result ≡ named (chosen_from self.now) (job_limits self.now) (state_of self.now) }
        ensures ready { Ready self.now draft.new result }
    {
        let opened = self.part.opened();
        match self.standing() {
            Some(ground) if opened == self.grid.places() => Next::Ended(ground),
            Some(ground) => self.at_place(opened, ground, draft),
            None if opened == 0 => Next::Makes(Step::Best(self.price())),
            None => self.at_place(opened - 1, 0, draft),
        }
    }
}
