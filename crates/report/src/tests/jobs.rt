use crate::{MOST_REPORTED, REPORT_BUFFER, report};
use catalogue::{Beside, Ladder, Rung};
use rules::{
    CallRecord, Fault, GREATEST_ROW, MOST_PLACES, MOST_ROWS, Refusal, Request, Row, Sheet,
};
use std::array;
use std::test::Fail;

// A record that asks for a call, with an answer that is to be replaced.
fn asks(code: u8, row: u8, number: i32) -> CallRecord {
    CallRecord {
        request: Request { code, row, number },
        answer: 99,
    }
}

// One place of two versions, by their first amounts and the steps to the second.
fn part(price: (i32, i32), standby: (i32, i32)) -> Result<Ladder, Fail> {
    let mut ladder = Ladder::new(2)?;
    let mut rungs = [Rung::default(); MOST_ROWS];
    rungs[0] = Rung {
        base: price.0,
        step: price.1,
    };
    rungs[1] = Rung {
        base: standby.0,
        step: standby.1,
    };
    ladder.add(2, rungs)?;
    Ok(ladder)
}

// Phones and batteries.
fn phones() -> Result<Beside<Ladder, Ladder>, Fail> {
    Ok(Beside::new(part((90, -30), (-20, -30))?, part((75, -35), (180, -80))?))
}

// One version at price 5.
fn single() -> Result<Ladder, Fail> {
    let mut ladder = Ladder::new(1)?;
    ladder.add(1, [Rung { base: 5, step: 0 }; MOST_ROWS])?;
    Ok(ladder)
}

// A sheet with at least 60 in each row.
fn sheet(places: u8, last_row: u8, cap: i32) -> Sheet {
    let row = Row { kind: 2, limit: 60 };
    Sheet {
        places,
        last_row,
        cap,
        rows: [row; GREATEST_ROW],
        order: array::from_fn(|index| index as u8 + 1),
    }
}

// A fault that says nothing of where it was met.
fn fault(layer: u8, number: u8) -> Fault {
    Fault {
        layer,
        number,
        ..Fault::default()
    }
}

// The answers of records.
fn answers<const N: usize>(records: &[CallRecord; N]) -> [u8; N] {
    array::from_fn(|index| records[index].answer)
}

#[test]
fn a_search_and_one_at_another_limit(rt: HostRuntime) -> Result<(), Fail> {
    let mut records = [
        asks(3, 0, 0),
        asks(4, 0, 100),
        asks(5, 0, 0),
        asks(1, 1, 50),
        asks(3, 0, 0),
        asks(4, 0, 100),
        asks(5, 0, 0),
    ];
    let mut out = [b'.'; REPORT_BUFFER];
    let Ok(length) = report(sheet(2, 1, 1000), phones()?, &mut records, &mut out) else {
        return Err(Fail::new("refused"));
    };
    let text = b"JOB 2 1\nCALL 1 OK\nCALL 2 OK\nCALL 3 OK\n\
LEAST 130 1 2 STEPS 9 GROUNDS 3\nBY 0 130\nBY 1 50\n\
CALL 4 OK\nCALL 5 OK\nCALL 6 OK\nCALL 7 OK\n\
LEAST 100 2 2 STEPS 11 GROUNDS 6\nBY 0 100\n";
    assert_eq!(rt; &out[..length], &text[..]);
    assert_eq!(rt; &out[length..], &[b'.'; REPORT_BUFFER][length..]);
    assert_eq!(rt; answers(&records), [0; 7]);
    assert_eq!(rt; records[3].request, asks(1, 1, 50).request);
    Ok(())
}

#[test]
fn a_call_refused_and_a_search_left_running(rt: HostRuntime) -> Result<(), Fail> {
    let mut records = [
        asks(3, 0, 0),
        asks(4, 0, 100),
        asks(5, 0, 0),
        asks(5, 0, 0),
        asks(3, 0, 0),
    ];
    let mut out = [b'.'; REPORT_BUFFER];
    let Ok(length) = report(sheet(1, 0, 4), single()?, &mut records, &mut out) else {
        return Err(Fail::new("refused"));
    };
    let text = b"JOB 1 0\nCALL 1 OK\nCALL 2 OK\nCALL 3 OK\nNONE STEPS 1 GROUNDS 1\nBY 0 5\n\
CALL 4 REFUSED 14\nCALL 5 OK\nUNFINISHED - STEPS 0 GROUNDS 1\n";
    assert_eq!(rt; &out[..length], &text[..]);
    assert_eq!(rt; answers(&records), [0, 0, 0, 14, 0]);
    Ok(())
}

#[test]
fn the_shortest_buffer(rt: HostRuntime) -> Result<(), Fail> {
    let mut records = [asks(3, 0, 0)];
    let mut out = [b'.'; REPORT_BUFFER];
    assert_eq!(rt;
        report(
            sheet(1, 0, 4),
            single()?,
            &mut records,
            &mut out[..REPORT_BUFFER - 1]
        ),
        Err(Fault::from(Refusal::BufferTooShort))
    );
    assert_eq!(rt; records[0].answer, 99);
    assert_eq!(rt; out[..], [b'.'; REPORT_BUFFER][..]);
    Ok(())
}

#[test]
fn the_most_records(rt: HostRuntime) -> Result<(), Fail> {
    let mut records = [asks(9, 0, 0); MOST_REPORTED + 1];
    let mut out = [b'.'; REPORT_BUFFER];
    assert_eq!(rt;
        report(sheet(1, 0, 4), single()?, &mut records, &mut out),
        Err(fault(1, 5))
    );
    assert_eq!(rt; records[0].answer, 99);
    assert_eq!(rt; out[..], [b'.'; REPORT_BUFFER][..]);
    let Ok(length) = report(sheet(1, 0, 4), single()?, &mut records[1..], &mut out) else {
        return Err(Fail::new("refused"));
    };
    assert!(rt; out[..length].ends_with(b"\nCALL 256 REFUSED 5\n"));
    assert_eq!(rt; records[MOST_REPORTED].answer, 5);
    Ok(())
}

#[test]
fn a_fault_of_the_opening_comes_first(rt: HostRuntime) -> Result<(), Fail> {
    let mut records = [asks(3, 0, 0); MOST_REPORTED + 1];
    assert_eq!(rt;
        report(sheet(0, 0, 4), single()?, &mut records, &mut [0; 5]),
        Err(fault(2, 6))
    );
    assert_eq!(rt; records[0].answer, 99);
    assert_eq!(rt;
        report(sheet(1, 0, 4), single()?, &mut records, &mut [0; 5]),
        Err(fault(4, 17))
    );
    Ok(())
}
