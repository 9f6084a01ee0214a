// A job whose opening found a fault.
use super::*;

// Version 2 of place 2 costs more than an amount may.
const FAULT: Fault = Fault {
    layer: 3,
    number: 13,
    byte: 0,
    place: 2,
    version: 2,
    row: 0,
};

fn faulty_ladder() -> Result<Ladder, Fail> {
    let mut ladder = Ladder::new(2)?;
    ladder.add(2, rungs(&[(90, -30), (-20, -30)]))?;
    ladder.add(2, rungs(&[(1_000_000, 1), (180, -80)]))?;
    Ok(ladder)
}

#[test]
fn every_call_tells_the_fault(rt: HostRuntime) -> Result<(), Fail> {
    let mut job = ClosedJob::open(worked_sheet(), faulty_ladder()?);
    assert_eq!(rt; job.fault(), Some(FAULT));
    assert_eq!(rt; job.limit(0), Err(FAULT));
    assert_eq!(rt; job.limit(9), Err(FAULT));
    assert_eq!(rt; job.verdict().err(), Some(FAULT));
    assert_eq!(rt; job.change_limit(1, 50), Err(FAULT));
    assert_eq!(rt; job.change_limit(9, 20_000_001), Err(FAULT));
    assert_eq!(rt; job.clear(), Err(FAULT));
    let (mut running, told) = job.search();
    assert_eq!(rt; told, Err(FAULT));
    assert_eq!(rt; running.fault(), Some(FAULT));
    assert_eq!(rt; running.run(5), Err(FAULT));
    assert_eq!(rt; running.run(-1), Err(FAULT));
    let (job, told) = running.close();
    assert_eq!(rt; told, Err(FAULT));
    assert_eq!(rt; job.fault(), Some(FAULT));
    assert_eq!(rt; job.verdict().err(), Some(FAULT));
    Ok(())
}

#[test]
fn every_record_has_its_number(rt: HostRuntime) -> Result<(), Fail> {
    let calls = [
        (5, 0, 0, 13),
        (1, 1, 50, 13),
        (1, 9, 50, 13),
        (2, 0, 0, 13),
        (9, 0, 0, 13),
        (3, 0, 7, 13),
        (3, 0, 0, 13),
        (3, 0, 0, 13),
        (4, 0, -1, 13),
        (4, 0, 100, 13),
    ];
    let mut given = records_of(rt.alloc(), &calls)?;
    let job = choose(worked_sheet(), faulty_ladder()?, &mut given);
    assert_answered(&rt, &given, &calls);
    assert_eq!(rt; job.fault(), Some(FAULT));
    Ok(())
}

// A call of a record that is answered with the fault; whether the job is running then.
fn runs_after(rt: &impl Abort, job: &mut Job<Ladder>, code: u8) -> bool {
    let request = Request {
        code,
        row: 0,
        number: 0,
    };
    assert_eq!(rt; job.take(request), FAULT.number);
    assert_eq!(rt; job.fault(), Some(FAULT));
    job.is_running()
}

#[test]
fn search_and_close_change_the_state(rt: HostRuntime) -> Result<(), Fail> {
    let mut job = ClosedJob::open(worked_sheet(), faulty_ladder()?).into_job();
    let steps = [
        (4, false),
        (5, false),
        (3, true),
        (3, true),
        (2, true),
        (9, true),
        (4, true),
        (5, false),
        (3, true),
    ];
    for (code, expected) in steps.iter() {
        assert_eq!(rt; runs_after(&rt, &mut job, *code), *expected);
    }
    assert_eq!(rt; job.closed().fault(), Some(FAULT));
    Ok(())
}
