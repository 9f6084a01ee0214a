// Full ledgers. Places 2 and 3 of these jobs are the digits of a price from 1,023 down to 0, and place 1 has no other version that is
// free. So a search finds each price in turn, learns a ground at position 1 after each, and another one at position 2 where
// place 3 has to move, that is after each thirty-two.
use super::*;

// Adds places 2 and 3.
fn add_digits(ladder: &mut Ladder) -> Result<(), Fail> {
    ladder.add(32, rungs(&[(31, -1)]))?;
    ladder.add(32, rungs(&[(992, -32)]))?;
    Ok(())
}

// Place 1 has a single version.
fn one_line_each() -> Result<ClosedJob<Ladder>, Fail> {
    let mut ladder = Ladder::new(1)?;
    ladder.add(1, rungs(&[]))?;
    add_digits(&mut ladder)?;
    Ok(ClosedJob::open(sheet(3, 2_000, &[]), ladder))
}

// Each 33 grounds take the price down by 32, so that 512 grounds take it down by 15 times 32 and 17 more. A price is found in four
// steps, or in six where place 3 moves, and the first one in one.
#[test]
fn most_grounds(rt: HostRuntime) -> Result<(), Fail> {
    let job = searched(&rt, one_line_each()?, 1_000_000, Why::IsFull, 2_019);
    let expected = Expected {
        says: "full",
        best: Some((526, &[1, 18, 16])),
        closing: &[],
        steps: 2_019,
        held: 512,
    };
    assert_verdict(&rt, &job, expected)?;
    // The next search is full as soon as it has to learn.
    let mut job = searched(&rt, job, 5, Why::IsFull, 1);
    let expected = Expected {
        says: "full",
        best: Some((1_023, &[1, 1, 1])),
        closing: &[],
        steps: 1,
        held: 512,
    };
    assert_verdict(&rt, &job, expected)?;
    assert_eq!(rt; job.change_limit(0, 100), Ok(()));
    let job = searched(&rt, job, 0, Why::IsFull, 0);
    let expected = Expected {
        says: "full",
        best: None,
        closing: &[],
        steps: 0,
        held: 512,
    };
    assert_verdict(&rt, &job, expected)
}

// At a cap of 100 the price 100 is found in six steps, with two grounds; each price below it as before, and place 3 moves three times;
// then a ground is learned at each position.
#[test]
fn after_clear_it_goes_on(rt: HostRuntime) -> Result<(), Fail> {
    let mut job = searched(&rt, one_line_each()?, 1_000_000, Why::IsFull, 2_019);
    assert_eq!(rt; job.change_limit(0, 100), Ok(()));
    assert_eq!(rt; job.clear(), Ok(()));
    let job = searched(&rt, job, 1_000_000, Why::HasEnded, 415);
    let expected = Expected {
        says: "least",
        best: Some((0, &[1, 32, 32])),
        closing: &[closing(0, 0)],
        steps: 415,
        held: 108,
    };
    assert_verdict(&rt, &job, expected)
}

// Place 1 has five versions, of which each but the first breaks a row of its own before others: so each ground has five lines.
fn five_lines_each() -> Result<ClosedJob<Ladder>, Fail> {
    let mut ladder = Ladder::new(5)?;
    ladder.add(5, rungs(&[(0, -2_000), (-3, 1), (-2, 1), (-1, 1), (0, 1)]))?;
    add_digits(&mut ladder)?;
    let rows = [(1, 0), (1, 0), (1, 0), (1, 0)];
    Ok(ClosedJob::open(sheet(3, 2_000, &rows), ladder))
}

// There is space for 409 grounds of five lines, and for three lines more: they take the price down by 12 times 32 and 13 more.
#[test]
fn most_lines(rt: HostRuntime) -> Result<(), Fail> {
    let mut job = searched(&rt, five_lines_each()?, 1_000_000, Why::IsFull, 1_613);
    let expected = Expected {
        says: "full",
        best: Some((626, &[1, 14, 13])),
        closing: &[],
        steps: 1_613,
        held: 409,
    };
    assert_verdict(&rt, &job, expected)?;
    // With all versions of place 1 allowed, each is found in turn, and then three prices more, each after a ground of one line.
    for row in 1..=4 {
        assert_eq!(rt; job.change_limit(row, i32::from(row)), Ok(()));
    }
    let job = searched(&rt, job, 1_000_000, Why::IsFull, 21);
    let expected = Expected {
        says: "full",
        best: Some((-6_980, &[5, 4, 1])),
        closing: &[],
        steps: 21,
        held: 412,
    };
    assert_verdict(&rt, &job, expected)
}
