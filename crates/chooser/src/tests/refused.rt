// Refused calls, on the worked job: what comes after them goes on as if they hadn't been.
use super::*;

// Calls and records that a closed job refuses, each by the first test that it fails.
const ON_CLOSED: [Asked; 15] = [
    (4, 0, 5, 14),
    (4, 0, -1, 14),
    (5, 0, 0, 14),
    (1, 2, 50, 15),
    (1, 255, 20_000_001, 15),
    (1, 1, 20_000_001, 8),
    (1, 1, -20_000_001, 8),
    (1, 0, i32::MIN, 8),
    (0, 0, 0, 5),
    (6, 0, 0, 5),
    (2, 1, 0, 5),
    (2, 0, 1, 5),
    (3, 0, -1, 5),
    (4, 1, 5, 5),
    (5, 1, 0, 5),
];

// A search with what is refused in it: after one step no budget above 999,999 is allowed, and after nine none above 999,991.
const IN_A_SEARCH: [Asked; 22] = [
    (3, 0, 0, 0),
    (1, 1, 50, 14),
    (1, 2, 50, 14),
    (1, 1, 20_000_001, 14),
    (2, 0, 0, 14),
    (3, 0, 0, 14),
    (4, 0, -1, 16),
    (4, 0, i32::MIN, 16),
    (4, 0, 1_000_001, 16),
    (4, 0, i32::MAX, 16),
    (4, 0, 1, 0),
    (4, 0, 1_000_000, 16),
    (9, 0, 0, 5),
    (4, 2, 1, 5),
    (2, 0, 7, 5),
    (3, 3, 0, 5),
    (5, 0, 7, 5),
    (4, 0, 999_999, 0),
    (4, 0, 999_992, 16),
    (4, 0, 999_991, 0),
    (4, 0, 0, 0),
    (5, 0, 0, 0),
];

// Plays a list of calls whose answers are expected.
fn played(
    rt: &impl Abort,
    alloc: Global,
    job: ClosedJob<Ladder>,
    calls: &[Asked],
) -> Result<ClosedJob<Ladder>, Fail> {
    let mut given = records_of(alloc, calls)?;
    let job = job.play(&mut given);
    assert_answered(rt, &given, calls);
    Ok(job)
}

#[test]
fn refused_by_records(rt: HostRuntime) -> Result<(), Fail> {
    let job = played(&rt, rt.alloc(), worked()?, &ON_CLOSED)?;
    assert!(rt; is_unsearched(&job)?);
    assert_eq!(rt; job.limit(0), Ok(1_000));
    assert_eq!(rt; job.limit(1), Ok(60));
    let job = played(&rt, rt.alloc(), job, &IN_A_SEARCH)?;
    assert_first(&rt, &job)?;
    // A refused limit change or clear leaves the verdict, and the grounds.
    let job = played(&rt, rt.alloc(), job, &ON_CLOSED)?;
    assert_first(&rt, &job)?;
    assert_eq!(rt; job.limit(1), Ok(60));
    let calls = [(1, 1, 50, 0), (3, 0, 0, 0), (4, 0, 100, 0)];
    let job = played(&rt, rt.alloc(), job, &calls)?;
    assert_second(&rt, &job)
}

#[test]
fn refused_by_calls(rt: HostRuntime) -> Result<(), Fail> {
    let mut job = searched(&rt, worked()?, 100, Why::HasEnded, 9);
    assert_eq!(rt;
        job.change_limit(2, 50),
        Err(Fault::from(Refusal::NoSuchRow))
    );
    assert_eq!(rt;
        job.change_limit(0, 20_000_001),
        Err(Fault::from(Refusal::LimitBeyond))
    );
    assert_first(&rt, &job)?;
    let (mut running, told) = job.search();
    assert_eq!(rt; told, Ok(()));
    let beyond = Err(Fault::from(Refusal::BudgetBeyond));
    assert_eq!(rt; running.run(-1), beyond);
    assert_eq!(rt; running.run(1_000_001), beyond);
    let made = running.run(2).map(|ran| ran.made);
    assert_eq!(rt; made, Ok(2));
    assert_eq!(rt; running.run(999_999), beyond);
    let why = running.run(999_998).map(|ran| ran.why);
    assert_eq!(rt; why, Ok(Why::HasEnded));
    Ok(())
}
