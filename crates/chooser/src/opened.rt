// What a job has come to that was opened without fault.
ghost use Rattle.std.specs.Prelude.{◌≡◌, true};
ghost use Rattle.search.specs.Findings.{learned_shaped};

use search::{Ran, Search, Verdict};

// What a call tells that was taken: that it was, or what a run came to.
#[derive(Clone, Copy)]
pub(crate) enum Made {
    Done,
    Ran(Ran),
}

// The search, at rest while the job is closed: it begins and ends in its place, since its tables are large; and the verdict on the last
// search, or none while the job is unsearched. Whether the job is closed is said beside it.
#[derive(Drop)]
pub(crate) struct Opened {
    pub(crate) search: Search,
    pub(crate) verdict: Option<Verdict>,
    ghost shaped: { learned_shaped search ≡ true },
}

mod calls;
