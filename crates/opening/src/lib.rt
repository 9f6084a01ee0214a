// The opening of a job: whether a sheet and a catalogue are without fault.
#![tactic(auto)]

mod catalogues;
mod checked;
mod sheets;

pub use checked::{Checked, check};

#[cfg(test)]
mod tests;
