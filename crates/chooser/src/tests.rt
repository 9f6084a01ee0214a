// Jobs as they are called; what is expected was worked out from docs/RULES.md.
use super::*;
use catalogue::{Ladder, Rung};
use rules::{
    CallRecord, ClosingLine, Fault, GREATEST_ROW, MOST_ROWS, Refusal, Request, Row, Sheet,
};
use search::{Ran, Why};
use std::alloc::Global;
use std::array;
use std::process::Abort;
use std::test::Fail;

mod faulty;
mod full;
mod limits;
mod records;
mod refused;
mod runs;
mod searches;

// What is expected of a verdict.
#[derive(Clone, Copy)]
struct Expected<'a> {
    says: &'a str,
    best: Option<(i64, &'a [u8])>,
    closing: &'a [ClosingLine],
    steps: u32,
    held: usize,
}

// A line of a closing ground.
fn closing(row: u8, constant: i64) -> ClosingLine {
    ClosingLine { row, constant }
}

// Rungs from row 0 on, and 0 in each row past them.
fn rungs(given: &[(i32, i32)]) -> [Rung; MOST_ROWS] {
    array::from_fn(|row| match given.get(row) {
        Some(given) => {
            let (base, step) = *given;
            Rung { base, step }
        }
        None => Rung::default(),
    })
}

// A sheet with the kinds and limits of the rows from 1 on, and the places in the order of their numbers.
fn sheet(places: u8, cap: i32, given: &[(u8, i32)]) -> Sheet {
    let mut rows = [Row::default(); GREATEST_ROW];
    for (row, given) in rows.iter_mut().zip(given) {
        let (kind, limit) = *given;
        *row = Row { kind, limit };
    }
    Sheet {
        places,
        last_row: given.len().min(GREATEST_ROW) as u8,
        cap,
        rows,
        order: array::from_fn(|index| index as u8 + 1),
    }
}

// The catalogue of the worked job: a phone (90, -20) or (60, -50), and a battery (75, 180) or (40, 100).
fn worked_ladder() -> Result<Ladder, Fail> {
    let mut ladder = Ladder::new(2)?;
    ladder.add(2, rungs(&[(90, -30), (-20, -30)]))?;
    ladder.add(2, rungs(&[(75, -35), (180, -80)]))?;
    Ok(ladder)
}

// The sheet of the worked job: at least 60 of row 1.
fn worked_sheet() -> Sheet {
    sheet(2, 1_000, &[(2, 60)])
}

// The worked job.
fn worked() -> Result<ClosedJob<Ladder>, Fail> {
    Ok(ClosedJob::open(worked_sheet(), worked_ladder()?))
}

// A search with one run, as it is closed.
fn searched(
    rt: &impl Abort,
    job: ClosedJob<Ladder>,
    budget: i32,
    why: Why,
    made: u32,
) -> ClosedJob<Ladder> {
    let (mut running, told) = job.search();
    assert_eq!(rt; told, Ok(()));
    assert_eq!(rt; running.run(budget), Ok(Ran { why, made }));
    let (job, told) = running.close();
    assert_eq!(rt; told, Ok(()));
    job
}

// Holds what is said of a search against what is expected of it.
fn assert_says(rt: &impl Abort, says: &Told, expected: &Expected<'_>) {
    let (word, best, ground) = match says {
        Told::Least(choice, ground) => ("least", Some(choice), Some(ground)),
        Told::Nothing(ground) => ("none", None, Some(ground)),
        Told::Full(best) => ("full", best.as_ref(), None),
        Told::Unfinished(best) => ("unfinished", best.as_ref(), None),
    };
    assert_eq!(rt; word, expected.says);
    let best = best.map(|choice| (choice.price, choice.versions.as_slice()));
    assert_eq!(rt; best, expected.best);
    let lines: &[ClosingLine] = match ground {
        Some(ground) => ground.lines.as_slice(),
        None => &[],
    };
    assert_eq!(rt; lines, expected.closing);
}

// Holds the verdict of a job against what is expected of it.
fn assert_verdict(
    rt: &impl Abort,
    job: &ClosedJob<Ladder>,
    expected: Expected<'_>,
) -> Result<(), Fail> {
    let seen = job.verdict()?.ok_or("unsearched")?;
    assert_says(rt, &seen.says, &expected);
    assert_eq!(rt; seen.steps, expected.steps);
    assert_eq!(rt; seen.held, expected.held);
    Ok(())
}

// Whether a job without fault is unsearched.
fn is_unsearched(job: &ClosedJob<Ladder>) -> Result<bool, Fault> {
    Ok(job.verdict()?.is_none())
}

// The verdict on the worked job at its limits.
fn assert_first(rt: &impl Abort, job: &ClosedJob<Ladder>) -> Result<(), Fail> {
    let expected = Expected {
        says: "least",
        best: Some((130, &[1, 2])),
        closing: &[closing(0, 130), closing(1, 50)],
        steps: 9,
        held: 3,
    };
    assert_verdict(rt, job, expected)
}

// The verdict on the worked job after that, with at least 50 of row 1.
fn assert_second(rt: &impl Abort, job: &ClosedJob<Ladder>) -> Result<(), Fail> {
    let expected = Expected {
        says: "least",
        best: Some((100, &[2, 2])),
        closing: &[closing(0, 100)],
        steps: 11,
        held: 6,
    };
    assert_verdict(rt, job, expected)
}

// A call of a list of records: its code, row and number, and the answer that is expected.
type Asked = (u8, u8, i32, u8);

// The record of a call, with room for its answer.
fn record(asked: Asked) -> CallRecord {
    let (code, row, number, _) = asked;
    CallRecord {
        request: Request { code, row, number },
        answer: 99,
    }
}

// The records of a list of calls.
fn records_of(alloc: Global, list: &[Asked]) -> Result<Vec<CallRecord>, Fail> {
    let mut records = Vec::new(alloc);
    for asked in list {
        records.push(record(*asked))?;
    }
    Ok(records)
}

// Holds each record against its request, with the answer that is expected.
fn assert_answered(rt: &impl Abort, records: &[CallRecord], list: &[Asked]) {
    assert_eq!(rt; records.len(), list.len());
    for (index, (given, asked)) in records.iter().zip(list).enumerate() {
        let answered = CallRecord {
            answer: asked.3,
            ..record(*asked)
        };
        assert_eq!(rt; *given, answered, "at {index}");
    }
}
