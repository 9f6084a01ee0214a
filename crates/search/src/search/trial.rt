// A part-choice that is tried in a search.
ghost use Rattle.std.specs.Prelude.{◌≤◌, ◌+◌};
ghost use Rattle.search.specs.Sums.{Totals, SummedFrom};
ghost use Rattle.search.specs.States.{chosen_from, part_in};

use crate::part::Part;
use crate::search::Search;
use crate::sums::RowSums;

// A part-choice with its totals, and the search whose grounds may stand there. Above the lowest place that is set, it is the
// part-choice of the search.
#[derive(Drop)]
pub(super) struct Trial<'a> {
    pub(super) search: &'a Search,
    pub(super) part: Part,
    pub(super) totals: RowSums,
    ghost within: { part.opened ≤ search.now.grid.places },
    ghost totalled: { Totals (chosen_from search.now) (part_in search.now part) totals },
    ghost summed: { SummedFrom (part.opened + 1) search.now.grid part search.now.sums },
}

mod stands;
