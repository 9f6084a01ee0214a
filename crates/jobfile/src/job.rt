// A job as a file states it, in memory.
use crate::calls::Calls;
use catalogue::{Ladder, Listing};
use rules::Sheet;

// The sheet, the calls, and the catalogue: the listing, over the bytes of the file, beside the ladder.
#[derive(Drop)]
pub struct Job {
    pub sheet: Sheet,
    pub calls: Calls,
    pub listing: Listing,
    pub ladder: Ladder,
}

mod begun;
mod catalogues;
