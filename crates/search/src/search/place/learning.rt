// How a ground is learned.
ghost use Rattle.std.specs.Prelude.{◌≡◌, ◌+◌, [], map, slice_index_or};
ghost use Rattle.rules.specs.Grounds.{with_lines};
ghost use Rattle.rules.specs.Search.{ground_at};
ghost use Rattle.ledger.specs.Drafted.{drafted};
ghost use Rattle.ledger.specs.Lines.{AllNear};
ghost use Rattle.search.specs.States.{chosen_from, job_limits, grounds, state_of, moved_at, moved_with};
ghost use Rattle.search.specs.Looks.{StoodTo};
ghost use Rattle.search.specs.Trials.{above_place, versions_at};

use crate::lines::NearLine;
use crate::pick::Pick;
use crate::position::VERSIONS;
use crate::search::place::Place;
use ledger::Draft;
use rules::Line;

impl Place<'_> {
    // Adds the lines of a ground to a draft as they are learned with a picked version.
    fn put_lines(&self, draft: &mut Draft, pick: Pick, ground: &[Line])
        requires { AllNear ground.now }
        ensures { let S = chosen_from self.now.search.now in drafted draft.new ≡ with_lines S (map (moved_with S pick) ground.now) (drafted draft.old) }
    {
        for line in ground {
            self.search.put_line(draft, pick, NearLine { line: *line });
        }
    }

    // Adds the ground at an index, which stands with a version, to a draft.
    fn put_version(&self, draft: &mut Draft, version: u8, ground: usize)
        ensures { let s = self.now.search.now in let S = chosen_from s in drafted draft.new ≡ with_lines S (map (moved_at S (self.now.index + 1) version) (slice_index_or (grounds s) ground [])) (drafted draft.old) }
    {
        let ground = self.search.ground(ground);
        self.put_lines(draft, self.pick(version), ground.lines());
    }

    // Drafts the ground that is learned at the place, from the first ground that stands with each version.
    pub(crate) fn learn(&self, draft: &mut Draft, stopped: [usize; VERSIONS])
        requires { StoodTo self.now.search.now (above_place self.now) (versions_at self.now) stopped }
        ensures { let s = self.now.search.now in drafted draft.new ≡ ground_at (chosen_from s) (job_limits s) (state_of s) (above_place self.now) }
    {
        draft.clear();
        for version in 1..=self.search.grid.versions(self.index) {
            self.put_version(draft, version, stopped[usize::from(version) - 1]);
        }
    }
}
