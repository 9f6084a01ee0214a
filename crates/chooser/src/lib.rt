// Jobs: their opening, the calls on them, and lists of call records.
#![tactic(auto)]

mod closed;
mod job;
mod opened;
mod requests;
mod running;
mod verdicts;
mod view;
mod whole;

pub use closed::ClosedJob;
pub use job::{Job, State};
pub use running::RunningJob;
pub use verdicts::{Choice, ClosingGround, Seen, Told};
pub use view::ClosedView;
pub use whole::choose;

#[cfg(test)]
mod tests;
