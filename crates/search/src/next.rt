// What comes next in a search.
use crate::pick::Pick;

// A step of a search; positions go by their index from 0.
#[derive(Drop)]
pub(crate) enum Step {
    // A place takes a version, and those below it are open.
    Set(Pick),
    // The ground that is drafted is learned at an index, which is open then.
    Learn(usize),
    // The choice becomes the best, at this price.
    Best(i64),
}

// The search has ended, is full, or makes a step.
#[derive(Drop)]
pub(crate) enum Next {
    // The closing ground is at this index of the ledger.
    Ended(usize),
    Full,
    Makes(Step),
}
