// Runs and their budgets, on the worked job.
use super::*;

// What a run came to.
fn ran(why: Why, made: u32) -> Result<Ran, Fault> {
    Ok(Ran { why, made })
}

#[test]
fn a_budget_of_0_makes_no_step(rt: HostRuntime) -> Result<(), Fail> {
    let job = searched(&rt, worked()?, 0, Why::BudgetUsed, 0);
    let expected = Expected {
        says: "unfinished",
        best: None,
        closing: &[],
        steps: 0,
        held: 0,
    };
    assert_verdict(&rt, &job, expected)?;
    let (mut running, told) = job.search();
    assert_eq!(rt; told, Ok(()));
    assert_eq!(rt; running.run(9), ran(Why::HasEnded, 9));
    assert_eq!(rt; running.run(0), ran(Why::HasEnded, 0));
    assert_eq!(rt; running.run(5), ran(Why::HasEnded, 0));
    assert_first(&rt, &running.close().0)
}

#[test]
fn one_step_at_a_time(rt: HostRuntime) -> Result<(), Fail> {
    let (mut running, told) = worked()?.search();
    assert_eq!(rt; told, Ok(()));
    for _ in 0..8 {
        assert_eq!(rt; running.run(1), ran(Why::BudgetUsed, 1));
    }
    assert_eq!(rt; running.run(1), ran(Why::HasEnded, 1));
    assert_first(&rt, &running.close().0)
}

// The first steps find the price 165, try the other phone, and find 135.
#[test]
fn unfinished_with_its_best_choice(rt: HostRuntime) -> Result<(), Fail> {
    let job = searched(&rt, worked()?, 3, Why::BudgetUsed, 3);
    let expected = Expected {
        says: "unfinished",
        best: Some((135, &[2, 1])),
        closing: &[],
        steps: 3,
        held: 0,
    };
    assert_verdict(&rt, &job, expected)?;
    // A new search begins anew.
    let job = searched(&rt, job, 100, Why::HasEnded, 9);
    assert_first(&rt, &job)
}

#[test]
fn after_clear_as_at_first(rt: HostRuntime) -> Result<(), Fail> {
    let mut job = searched(&rt, worked()?, 100, Why::HasEnded, 9);
    assert_eq!(rt; job.clear(), Ok(()));
    assert!(rt; is_unsearched(&job)?);
    let job = searched(&rt, job, 100, Why::HasEnded, 9);
    assert_first(&rt, &job)
}
