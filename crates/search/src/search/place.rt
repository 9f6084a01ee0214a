// A place that is set next in a search.
ghost use Rattle.std.specs.Prelude.{◌+◌, ◌<◌, ◌≤◌};
ghost use Rattle.search.specs.Looks.{PassedAt};

use crate::position::VERSIONS;
use crate::search::Search;

// A place by its index; those below it are open. With the version that it has now, no ground below an index stands: a look there
// begins where the last one ended.
#[derive(Drop)]
pub(super) struct Place<'a> {
    pub(super) search: &'a Search,
    pub(super) index: usize,
    pub(super) passed: usize,
    ghost there: { index < search.now.grid.places },
    ghost next: { search.now.part.opened ≤ index + 1 },
    ghost passed_by: { PassedAt search.now index passed },
}

// What a look at the versions of a place comes to: the lowest with which no ground stands; and for each before it the first ground
// that stands, by its index, that of version 1 being at 0.
#[derive(Drop)]
pub(super) struct Looked {
    pub(super) free: Option<u8>,
    pub(super) stopped: [usize; VERSIONS],
}

mod learning;
mod looks;
mod steps;
