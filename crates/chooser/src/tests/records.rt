// Lists of call records, on the worked job.
use super::*;

#[test]
fn the_worked_job_by_records(rt: HostRuntime) -> Result<(), Fail> {
    let calls = [(3, 0, 0, 0), (4, 0, 100, 0), (5, 0, 0, 0)];
    let mut given = records_of(rt.alloc(), &calls)?;
    let job = choose(worked_sheet(), worked_ladder()?, &mut given);
    assert_answered(&rt, &given, &calls);
    assert_first(&rt, &job)?;
    let calls = [(1, 1, 50, 0), (3, 0, 0, 0), (4, 0, 100, 0), (5, 0, 0, 0)];
    let mut given = records_of(rt.alloc(), &calls)?;
    let job = job.play(&mut given);
    assert_answered(&rt, &given, &calls);
    assert_second(&rt, &job)
}

#[test]
fn a_list_of_both_searches(rt: HostRuntime) -> Result<(), Fail> {
    let calls = [
        (3, 0, 0, 0),
        (4, 0, 100, 0),
        (5, 0, 0, 0),
        (1, 1, 50, 0),
        (3, 0, 0, 0),
        (4, 0, 100, 0),
        (5, 0, 0, 0),
    ];
    let mut given = records_of(rt.alloc(), &calls)?;
    let job = choose(worked_sheet(), worked_ladder()?, &mut given);
    assert_answered(&rt, &given, &calls);
    assert_second(&rt, &job)?;
    assert_eq!(rt; job.limit(1), Ok(50));
    Ok(())
}

#[test]
fn no_record(rt: HostRuntime) -> Result<(), Fail> {
    let job = choose(worked_sheet(), worked_ladder()?, &mut []);
    assert!(rt; is_unsearched(&job)?);
    assert_eq!(rt; job.limit(1), Ok(60));
    Ok(())
}

// A request that names no row.
fn request(code: u8, number: i32) -> Request {
    Request {
        code,
        row: 0,
        number,
    }
}

// What a job that takes records in its place tells as a closed one.
fn steps_told(job: &Job<Ladder>) -> Result<Option<u32>, Fail> {
    let closed = job.as_closed().ok_or("running")?;
    Ok(closed.verdict()?.map(|seen| seen.steps))
}

#[test]
fn a_verdict_of_a_closed_job_alone(rt: HostRuntime) -> Result<(), Fail> {
    let mut job = worked()?.into_job();
    assert_eq!(rt; steps_told(&job)?, None);
    for (code, number) in [(3, 0), (4, 100)].iter() {
        assert_eq!(rt; job.take(request(*code, *number)), 0);
        assert!(rt; job.as_closed().is_none());
    }
    assert_eq!(rt; job.take(request(5, 0)), 0);
    assert_eq!(rt; steps_told(&job)?, Some(9));
    Ok(())
}

#[test]
fn closed_after_the_last_record(rt: HostRuntime) -> Result<(), Fail> {
    let calls = [(3, 0, 0, 0), (4, 0, 3, 0)];
    let mut given = records_of(rt.alloc(), &calls)?;
    let job = choose(worked_sheet(), worked_ladder()?, &mut given);
    assert_answered(&rt, &given, &calls);
    let expected = Expected {
        says: "unfinished",
        best: Some((135, &[2, 1])),
        closing: &[],
        steps: 3,
        held: 0,
    };
    assert_verdict(&rt, &job, expected)?;
    // It is closed: a list of calls that goes on finds it so.
    let calls = [(5, 0, 0, 14), (3, 0, 0, 0), (4, 0, 9, 0)];
    let mut given = records_of(rt.alloc(), &calls)?;
    let job = job.play(&mut given);
    assert_answered(&rt, &given, &calls);
    assert_first(&rt, &job)
}
