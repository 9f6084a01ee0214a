// The search for the least choice, by position, over a table of amounts.
#![tactic(auto)]

mod closing;
mod found;
mod grid;
mod lines;
mod next;
mod part;
mod pick;
mod position;
mod search;
mod sums;

pub use closing::Closing;
pub use found::{Finding, Ran, Verdict, Why};
pub use grid::Grid;
pub use part::Part;
pub use search::Search;
