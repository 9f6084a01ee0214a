// What a file is read as, in a line.
use crate::drafts::Draft;
use catalogue::Catalogue;
use jobfile::Job;
use report::fault_line;
use std::io;

// A job's counts: places and last row, listed places and ladders, calls.
fn show_job(rt: &impl Print, job: &Job) -> io::Result<()> {
    let (places, last_row) = (job.sheet.places, job.sheet.last_row);
    let listed = job.listing.places();
    let ladders = job.ladder.places();
    let calls = job.calls.list().len();
    println!(rt; "JOB {places} {last_row} LISTED {listed} LADDERS {ladders} CALLS {calls}")
}

// The name of a case, and what its file is read as.
pub(crate) fn show(rt: &impl Print, name: &str, draft: &Draft) -> anyhow::Result<()> {
    print!(rt; "{name}: ")?;
    match jobfile::read(draft.bytes.as_slice()) {
        Ok(job) => show_job(rt, &job)?,
        Err(fault) => print!(rt; "{}", fault_line(&fault))?,
    }
    Ok(())
}
