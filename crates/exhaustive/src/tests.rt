use super::*;
use catalogue::{Ladder, Rung};
use rules::{GREATEST_ROW, Kind, MOST_PLACES, MOST_ROWS, Refusal, Row, Sheet};
use std::test::Fail;

// A sheet for so many places, with a price cap and one row more that takes the greatest.
fn sheet(places: u8, cap: i32, limit: i32) -> Sheet {
    let row = Row {
        kind: Kind::GreatestAtMost.number(),
        limit,
    };
    Sheet {
        places,
        last_row: 1,
        cap,
        rows: [row; GREATEST_ROW],
        order: [0; MOST_PLACES],
    }
}

// Two places of three versions each: the price falls by a step, and the other row rises from -7.
fn two_places(step: i32) -> Result<Ladder, Fail> {
    let mut made = Ladder::new(2)?;
    let mut rungs = [Rung { base: 10, step }; MOST_ROWS];
    rungs[1] = Rung { base: -7, step: 2 };
    made.add(3, rungs)?;
    made.add(3, rungs)?;
    Ok(made)
}

// The price, and the versions of the first three places.
fn told(answer: Result<Option<Found>, Refusal>) -> Result<(i64, u8, u8, u8), Fail> {
    let Ok(Some(found)) = answer else {
        return Err(Fail::new("nothing was found"));
    };
    Ok((
        found.price,
        found.versions[0],
        found.versions[1],
        found.versions[2],
    ))
}

#[test]
fn cheapest_and_first(rt: HostRuntime) -> Result<(), Fail> {
    let level = two_places(0)?;
    assert_eq!(rt; told(cheapest(&sheet(2, 20, -3), &level))?, (20, 1, 1, 0));
    let falling = two_places(-4)?;
    assert_eq!(rt; told(cheapest(&sheet(2, 20, -3), &falling))?, (4, 3, 3, 0));
    assert_eq!(rt; told(cheapest(&sheet(2, 20, -4), &falling))?, (12, 2, 2, 0));
    assert_eq!(rt; told(cheapest(&sheet(2, 20, -7), &falling))?, (20, 1, 1, 0));
    Ok(())
}

#[test]
fn none_and_refused(rt: HostRuntime) -> Result<(), Fail> {
    let falling = two_places(-4)?;
    assert_eq!(rt; cheapest(&sheet(2, 3, -3), &falling), Ok(None));
    assert_eq!(rt; cheapest(&sheet(2, 19, -7), &falling), Ok(None));
    assert_eq!(rt;
        cheapest(&sheet(3, 20, -3), &falling),
        Err(Refusal::CountsDiffer)
    );
    let mut unknown = sheet(2, 20, -3);
    unknown.rows[0].kind = 4;
    assert_eq!(rt; cheapest(&unknown, &falling), Err(Refusal::UnknownKind));
    Ok(())
}
