// What programs show of a job and of its answer, as texts.
#![tactic(auto)]

mod answers;
mod catalogues;
mod numbers;
mod sheets;

pub use answers::AnswerText;
pub use catalogues::CatalogueText;
pub use sheets::{CallsText, SheetText};

#[cfg(test)]
mod tests;
