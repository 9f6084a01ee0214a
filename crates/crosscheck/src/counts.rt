// How often each thing was met.
mod calls;
mod closes;
mod jobs;

use calls::CallCounts;
use closes::{GroundCounts, VerdictCounts};
use jobs::JobCounts;
use std::io;

// Kinds have numbers below this.
const KINDS: usize = 4;

#[derive(Clone, Copy, Default)]
pub(crate) struct Counts {
    pub(crate) jobs: JobCounts,
    pub(crate) calls: CallCounts,
    pub(crate) verdicts: VerdictCounts,
    pub(crate) grounds: GroundCounts,
}

// So many more.
fn more(count: &mut u32, by: u32) {
    *count = count.saturating_add(by);
}

// One more where something is so.
fn one_if(count: &mut u32, so: bool) {
    more(count, u32::from(so));
}

// One more at an index of a table.
fn one_at(counts: &mut [u32], index: usize) {
    if let Some(count) = counts.get_mut(index) {
        more(count, 1);
    }
}

// The numbers of a table other than 0, a line each.
fn print_table(rt: &impl Print, name: &str, counts: &[u32]) -> io::Result<()> {
    for (index, count) in counts.iter().enumerate() {
        if *count > 0 {
            println!(rt; "{name} {index}: {count}")?;
        }
    }
    Ok(())
}

impl Counts {
    // Prints the counts, a line each.
    pub(crate) fn print(&self, rt: &impl Print) -> io::Result<()> {
        self.jobs.print(rt)?;
        self.calls.print(rt)?;
        self.verdicts.print(rt)?;
        self.grounds.print(rt)
    }
}
