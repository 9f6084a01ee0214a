// Limits in force, on the worked job.
use super::*;

#[test]
fn limits_in_force(rt: HostRuntime) -> Result<(), Fail> {
    let mut job = worked()?;
    let beyond = Err(Fault::from(Refusal::NoSuchRow));
    assert_eq!(rt; job.limit(0), Ok(1_000));
    assert_eq!(rt; job.limit(1), Ok(60));
    assert_eq!(rt; job.limit(2), beyond);
    assert_eq!(rt; job.change_limit(1, -20_000_000), Ok(()));
    assert_eq!(rt; job.change_limit(0, 20_000_000), Ok(()));
    assert_eq!(rt; job.change_limit(1, 50), Ok(()));
    assert_eq!(rt; job.limit(0), Ok(20_000_000));
    assert_eq!(rt; job.limit(1), Ok(50));
    Ok(())
}

#[test]
fn a_change_makes_unsearched(rt: HostRuntime) -> Result<(), Fail> {
    let mut job = searched(&rt, worked()?, 100, Why::HasEnded, 9);
    // The search lowered its own cap alone.
    assert_eq!(rt; job.limit(0), Ok(1_000));
    assert!(rt; !is_unsearched(&job)?);
    assert_eq!(rt; job.change_limit(1, 60), Ok(()));
    assert!(rt; is_unsearched(&job)?);
    Ok(())
}

// No choice costs 120 at most with at least 60 of row 1.
fn assert_none(rt: &impl Abort, job: &ClosedJob<Ladder>) -> Result<(), Fail> {
    let expected = Expected {
        says: "none",
        best: None,
        closing: &[closing(0, 130), closing(1, 50)],
        steps: 4,
        held: 3,
    };
    assert_verdict(rt, job, expected)
}

#[test]
fn the_cap_as_a_limit(rt: HostRuntime) -> Result<(), Fail> {
    let mut job = worked()?;
    assert_eq!(rt; job.change_limit(0, 120), Ok(()));
    let mut job = searched(&rt, job, 100, Why::HasEnded, 4);
    assert_none(&rt, &job)?;
    assert_eq!(rt; job.change_limit(0, 130), Ok(()));
    let job = searched(&rt, job, 100, Why::HasEnded, 6);
    let expected = Expected {
        says: "least",
        best: Some((130, &[1, 2])),
        closing: &[closing(0, 130), closing(1, 50)],
        steps: 6,
        held: 6,
    };
    assert_verdict(&rt, &job, expected)
}
