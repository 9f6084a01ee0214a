// The report of a job and the line of a fault, as text.
#![tactic(auto)]

mod faults;
mod files;
mod laws;
mod page;
mod reports;

pub use faults::{FAULT_BUFFER, fault_line, write_fault};
pub use files::report_file;
pub use laws::{report_law, worked_report};
pub use page::REPORT_BUFFER;
pub use reports::{MOST_REPORTED, report};

#[cfg(test)]
mod tests;
