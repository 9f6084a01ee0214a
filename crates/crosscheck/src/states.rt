// The state of a job held against what is expected of it.
use crate::jobs::Mixed;
use crate::limits::Limits;
use crate::models::{Model, NO_SUCH_ROW, plain_fault};
use crate::said::Said;
use anyhow::{Result, anyhow, bail, ensure};
use chooser::{ClosedJob, State};
use rules::Fault;

// What a job tells that was opened without fault.
fn told<T: Drop>(told: Result<T, Fault>) -> Result<T> {
    told.map_err(|fault| anyhow!("a fault {}", fault.number))
}

// What is said of the last search, or none while the job is unsearched.
pub(crate) fn said_by(job: &ClosedJob<Mixed<'_>>) -> Result<Option<Said>> {
    let seen = told(job.verdict())?;
    Ok(seen.as_ref().map(Said::of))
}

// The limits in force, as the job tells them.
fn limits_told(job: &ClosedJob<Mixed<'_>>, last_row: u8) -> Result<Limits> {
    let mut limits = Limits::none();
    for row in 0..=last_row {
        limits = limits.with(row, told(job.limit(row))?);
    }
    let above = job.limit(last_row.saturating_add(1));
    ensure!(
        above == Err(plain_fault(NO_SUCH_ROW)),
        "{above:?} above the last row"
    );
    Ok(limits)
}

// Holds a closed job against what is expected of it.
pub(crate) fn check_closed(model: &Model, job: &ClosedJob<Mixed<'_>>) -> Result<()> {
    let limits = limits_told(job, model.last_row)?;
    ensure!(limits == model.limits, "the limits are {limits:?}");
    let said = said_by(job)?;
    ensure!(
        said == model.said,
        "the verdict is {said:?} and not {:?}",
        model.said
    );
    Ok(())
}

// Holds a job, closed or with a running search, against what is expected of it.
pub(crate) fn check_state(model: &Model, job: &State<Mixed<'_>>) -> Result<()> {
    match (job, &model.running) {
        (State::Closed(job), None) => check_closed(model, job),
        (State::Running(_), Some(_)) => Ok(()),
        (State::Closed(_), Some(_)) => bail!("the job is closed"),
        (State::Running(_), None) => bail!("the job is running"),
    }
}
