// Job files: what a file states, how that is written, and how it is read.
#![tactic(auto)]

mod bodies;
mod bounds;
mod calls;
mod checks;
mod fields;
mod files;
mod job;
mod laws;
mod reader;

pub use bounds::{MOST_BYTES, MOST_CALLS};
pub use calls::Calls;
pub use files::read;
pub use job::Job;
pub use laws::{longest_law, opens_law, read_law, refused_law, worked_files};
