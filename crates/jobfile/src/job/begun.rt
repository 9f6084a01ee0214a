// A job of which only the counts and the cap are known.
ghost use Rattle.std.specs.Prelude.{◌≡◌, ◌≤◌};
ghost use Rattle.rules.specs.Bounds.{greatest_row};
ghost use Rattle.jobfile.specs.Begun.{Begun};

use crate::calls::Calls;
use crate::job::Job;
use catalogue::{Ladder, Listing};
use rules::{GREATEST_ROW, MOST_PLACES, Row, Sheet};

impl Job {
    // No row, no order, no place and no call yet; the fields of a file end at a byte.
    pub(crate) fn begun(end: usize, places: u8, last_row: u8, cap: i32) -> Job
        requires { last_row ≤ greatest_row }
        ensures { Begun end places last_row «cap» result }
    {
        let Ok(listing) = Listing::new(end, last_row + 1) else {
            unreachable()
        };
        let Ok(ladder) = Ladder::new(last_row + 1) else {
            unreachable()
        };
        let sheet = Sheet {
            places,
            last_row,
            cap,
            rows: [Row::default(); GREATEST_ROW],
            order: [0; MOST_PLACES],
        };
        Job {
            sheet,
            calls: Calls::none(),
            listing,
            ladder,
        }
    }
}
