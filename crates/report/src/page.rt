// The page on which a report is written.
ghost use Rattle.std.specs.Prelude.{◌≡◌};
ghost use Rattle.report.specs.Pages.{fitting};

use arrayvec::ArrayVec;

// A report is written into a buffer of at least so many bytes, and is never longer.
pub const REPORT_BUFFER: usize = 40_960;

// The text of a report as far as it is written. What goes beyond the space for a report is left out, so that writing asks
// for nothing; that nothing is ever left out is proved of whole reports.
#[derive(Drop)]
pub(crate) struct Page {
    bytes: ArrayVec<u8, REPORT_BUFFER>,
    ghost fits: { fitting bytes.items ≡ bytes.items },
}

mod calls;
mod verdicts;
mod writes;
