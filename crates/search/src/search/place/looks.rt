// Which versions of a place are free.
ghost use Rattle.std.specs.Prelude.{◌≡◌, ◌∷◌, None};
ghost use Rattle.rules.specs.Search.{lowest_free};
ghost use Rattle.search.specs.States.{chosen_from, job_limits, state_of};
ghost use Rattle.search.specs.Looks.{Passed, StoodTo};
ghost use Rattle.search.specs.Trials.{tried, above_place, versions_at};

use crate::pick::Pick;
use crate::position::VERSIONS;
use crate::search::place::{Looked, Place};
use crate::search::trial::Trial;

impl<'a> Place<'a> {
    // A version for the place.
    pub(crate) fn pick(&self, version: u8) -> Pick
        ensures index { result.index ≡ self.now.index }
        ensures version { result.version ≡ version }
    {
        Pick {
            index: self.index,
            version,
        }
    }

    // The place with a version, to be tried.
    fn trial(&self, version: u8) -> Trial<'a>
        ensures search { result.search.now ≡ self.now.search.now }
        ensures tried { tried result ≡ version ∷ above_place self.now }
    {
        let pick = self.pick(version);
        Trial {
            search: self.search,
            part: self.search.part.with(pick),
            totals: self.search.sums_with(pick),
        }
    }

    // The ground at which a look at a version begins.
    fn first_look(&self, version: u8) -> usize
        ensures { Passed self.now.search.now (version ∷ above_place self.now) result }
    {
        if version == self.search.part.version(self.index) {
            self.passed
        } else {
            0
        }
    }

    // The lowest version with which no ground stands, or the first ground that stands with each: at the first ground that stands, on
    // to the next version; behind the last ground the version is free.
    pub(crate) fn look(&self) -> Looked
        ensures free { let s = self.now.search.now in result.free ≡ lowest_free (chosen_from s) (job_limits s) (state_of s) (above_place self.now) (versions_at self.now) }
        ensures stood { result.free ≡ None → StoodTo self.now.search.now (above_place self.now) (versions_at self.now) result.stopped }
    {
        let mut stopped = [0; VERSIONS];
        let free = 'free: {
            'versions: for version in 1..=self.search.grid.versions(self.index) {
                let trial = self.trial(version);
                'grounds: for ground in self.first_look(version)..self.search.ground_count() {
                    if trial.ground_stands(ground) {
                        stopped[usize::from(version) - 1] = ground;
                        continue 'versions;
                    }
                }
                break 'free Some(version);
            }
            None
        };
        Looked { free, stopped }
    }
}
