// What a ledger is asked.
ghost use Rattle.std.specs.Prelude.{◌≡◌, ◌≤◌, [], length, slice_index_or};
ghost use Rattle.rules.specs.Bounds.{most_grounds};
ghost use Rattle.rules.specs.Search.{room};
ghost use Rattle.ledger.specs.Lines.{AllNear};
ghost use Rattle.ledger.specs.Tables.{lowest_level};
ghost use Rattle.ledger.specs.Model.{held};

use crate::table::Ledger;
use rules::{Line, MOST_PLACES};

impl Ledger {
    // How many grounds there are.
    pub fn count(&self) -> usize
        ensures is { result ≡ length (held self.now) }
        ensures most { result ≤ most_grounds }
    {
        self.grounds.len()
    }

    // Whether there is space for one ground more.
    pub fn has_room(&self, ground: &[Line]) -> bool
        ensures { result ≡ room (held self.now) ground.now }
    {
        !self.grounds.is_full() && ground.len() <= self.lines.remaining_capacity()
    }

    // The lines of the ground at an index, the oldest ground being at 0; none past the last ground.
    #[tactic(auto, using(crate::proofs::Cuts::record_within))]
    pub fn ground(&self, index: usize) -> &[Line]
        ensures lines { result.now ≡ slice_index_or (held self.now) index [] }
        ensures near { AllNear result.now }
    {
        match self.grounds.get(index) {
            Some(record) => &self.lines[record.start..record.end],
            None => &[],
        }
    }

    // The lowest level of the ground at an index, told without a look at its lines.
    #[tactic(auto, using(crate::proofs::LowestLevels::record_told))]
    pub fn lowest_level(&self, index: usize) -> u8
        ensures { result ≡ lowest_level (slice_index_or (held self.now) index []) }
    {
        match self.grounds.get(index) {
            Some(record) => record.lowest,
            None => MOST_PLACES as u8,
        }
    }
}
