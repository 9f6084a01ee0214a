// Searches by the calls on a job.
use super::*;

#[test]
fn the_worked_job(rt: HostRuntime) -> Result<(), Fail> {
    let job = worked()?;
    assert!(rt; is_unsearched(&job)?);
    let mut job = searched(&rt, job, 100, Why::HasEnded, 9);
    assert_first(&rt, &job)?;
    assert_eq!(rt; job.change_limit(1, 50), Ok(()));
    let job = searched(&rt, job, 100, Why::HasEnded, 11);
    assert_second(&rt, &job)
}

// A job of one version at price 5.
fn one_version(cap: i32) -> Result<ClosedJob<Ladder>, Fail> {
    let mut ladder = Ladder::new(1)?;
    ladder.add(1, rungs(&[(5, 0)]))?;
    Ok(ClosedJob::open(sheet(1, cap, &[]), ladder))
}

#[test]
fn one_version_beyond_the_cap(rt: HostRuntime) -> Result<(), Fail> {
    let job = searched(&rt, one_version(4)?, 100, Why::HasEnded, 1);
    let expected = Expected {
        says: "none",
        best: None,
        closing: &[closing(0, 5)],
        steps: 1,
        held: 1,
    };
    assert_verdict(&rt, &job, expected)
}

#[test]
fn one_version_at_the_cap(rt: HostRuntime) -> Result<(), Fail> {
    let job = searched(&rt, one_version(5)?, 100, Why::HasEnded, 2);
    let expected = Expected {
        says: "least",
        best: Some((5, &[1])),
        closing: &[closing(0, 5)],
        steps: 2,
        held: 1,
    };
    assert_verdict(&rt, &job, expected)
}

// Three places of three versions each: the least price wants version 1 at place 1 and version 3 at place 3; at place 2 it wants
// version 3 too, which a row of its own refuses.
fn three_places(order: &[u8; 3]) -> Result<ClosedJob<Ladder>, Fail> {
    let mut ladder = Ladder::new(2)?;
    ladder.add(3, rungs(&[(1, 1)]))?;
    ladder.add(3, rungs(&[(6, -1), (0, 1)]))?;
    ladder.add(3, rungs(&[(9, -1)]))?;
    let mut sheet = sheet(3, 100, &[(1, 1)]);
    sheet.order[..3].copy_from_slice(order);
    Ok(ClosedJob::open(sheet, ladder))
}

#[test]
fn every_order_comes_to_one_choice(rt: HostRuntime) -> Result<(), Fail> {
    let orders = [
        [1, 2, 3],
        [1, 3, 2],
        [2, 1, 3],
        [2, 3, 1],
        [3, 1, 2],
        [3, 2, 1],
    ];
    for order in orders.iter() {
        let (mut running, told) = three_places(order)?.search();
        assert_eq!(rt; told, Ok(()));
        assert_eq!(rt; running.run(1_000).map(|ran| ran.why), Ok(Why::HasEnded));
        let seen = running.close().0.verdict()?.ok_or("unsearched")?;
        let Told::Least(choice, ground) = &seen.says else {
            return Err(Fail::new("no least choice"));
        };
        assert_eq!(rt; choice.price, 13, "{order:?}");
        assert_eq!(rt;
            choice.versions.as_slice(),
            [1, 2, 3].as_slice(),
            "{order:?}"
        );
        let lines = [closing(0, 13), closing(1, 2)];
        assert_eq!(rt; ground.lines.as_slice(), lines.as_slice(), "{order:?}");
    }
    Ok(())
}
