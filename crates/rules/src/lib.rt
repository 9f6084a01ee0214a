// The rules of a job, its search and its calls, as definitions in specs/, and what is proved of them.
// The plain types here are those that the definitions speak of.
#![tactic(auto)]

mod bounds;
mod kinds;
mod laws;
mod lines;
mod numbers;
mod records;
mod refusals;
mod sheets;

pub use bounds::{
    AMOUNT_REACH, GREATEST_AMOUNT, GREATEST_LIMIT, GREATEST_ROW, MOST_GROUNDS, MOST_LINES,
    MOST_PLACES, MOST_ROWS, MOST_STEPS, MOST_VERSIONS,
};
pub use kinds::Kind;
pub use laws::{
    call_law, count_law, ground_law, history_law, learning_law, opening_law, promise_law,
    record_law, refusal_law, step_law, worked_examples,
};
pub use lines::{ClosingLine, Line};
pub use numbers::number_at;
pub use records::{CallRecord, Request};
pub use refusals::{Fault, Refusal};
pub use sheets::{Row, Sheet, lists_each};
