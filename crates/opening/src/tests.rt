use super::*;
use catalogue::{Catalogue, Ladder, Rung};
use rules::{Fault, GREATEST_ROW, MOST_ROWS, Row, Sheet};
use std::array;
use std::test::Fail;

// A sheet for so many places and rows, with limits as far from 0 as they may lie.
fn sheet(places: u8, last_row: u8) -> Sheet {
    let row = Row {
        kind: 2,
        limit: -20_000_000,
    };
    Sheet {
        places,
        last_row,
        cap: 20_000_000,
        rows: [row; GREATEST_ROW],
        order: array::from_fn(|index| index as u8 + 1),
    }
}

// So many places of two versions each, whose amounts are 1,000,000 and 999,999.
fn ladder(places: u8, rows: u8) -> Result<Ladder, Fail> {
    let rung = Rung {
        base: 1_000_000,
        step: -1,
    };
    let mut made = Ladder::new(rows)?;
    for _ in 0..places {
        made.add(2, [rung; MOST_ROWS])?;
    }
    Ok(made)
}

// A fault of a layer and a number, and of where it was met.
fn fault(layer: u8, number: u8, place: u8, version: u8, row: u8) -> Option<Fault> {
    Some(Fault {
        layer,
        number,
        byte: 0,
        place,
        version,
        row,
    })
}

// A fault of the sheet.
fn of_sheet(number: u8) -> Option<Fault> {
    fault(2, number, 0, 0, 0)
}

#[test]
fn what_is_checked_is_held(rt: HostRuntime) -> Result<(), Fail> {
    let sheet = sheet(2, 1);
    let ladder = ladder(2, 2)?;
    let Ok(checked) = check(&sheet, &ladder) else {
        return Err(Fail::new("a fault was found"));
    };
    assert_eq!(rt; *checked.sheet, sheet);
    assert_eq!(rt; checked.catalogue.amount(1, 2, 2), Some(999_999));
    Ok(())
}

#[test]
fn counts_of_a_sheet(rt: HostRuntime) -> Result<(), Fail> {
    assert_eq!(rt; check(&sheet(1, 0), &ladder(1, 1)?).err(), None);
    assert_eq!(rt; check(&sheet(16, 8), &ladder(16, 9)?).err(), None);
    let whole = ladder(16, 9)?;
    assert_eq!(rt; check(&sheet(0, 8), &whole).err(), of_sheet(6));
    assert_eq!(rt; check(&sheet(17, 8), &whole).err(), of_sheet(6));
    assert_eq!(rt; check(&sheet(16, 9), &whole).err(), of_sheet(6));
    Ok(())
}

#[test]
fn cap_and_limits(rt: HostRuntime) -> Result<(), Fail> {
    let two = ladder(1, 2)?;
    let ladder = ladder(1, 3)?;
    let mut given = sheet(1, 2);
    given.cap = -20_000_000;
    given.rows[1].limit = 20_000_000;
    assert_eq!(rt; check(&given, &ladder).err(), None);
    given.cap = 20_000_001;
    assert_eq!(rt; check(&given, &ladder).err(), of_sheet(8));
    given.cap = -20_000_001;
    assert_eq!(rt; check(&given, &ladder).err(), of_sheet(8));
    given.cap = 0;
    given.rows[1].limit = 20_000_001;
    assert_eq!(rt; check(&given, &ladder).err(), of_sheet(8));
    // A row past the last is not read.
    given.last_row = 1;
    given.rows[1].kind = 4;
    assert_eq!(rt; check(&given, &two).err(), None);
    Ok(())
}

#[test]
fn kinds(rt: HostRuntime) -> Result<(), Fail> {
    let ladder = ladder(1, 3)?;
    let mut given = sheet(1, 2);
    given.rows[0].kind = 1;
    given.rows[1].kind = 3;
    assert_eq!(rt; check(&given, &ladder).err(), None);
    given.rows[1].kind = 4;
    assert_eq!(rt; check(&given, &ladder).err(), of_sheet(7));
    given.rows[1].kind = 0;
    assert_eq!(rt; check(&given, &ladder).err(), of_sheet(7));
    Ok(())
}

#[test]
fn order_of_the_places(rt: HostRuntime) -> Result<(), Fail> {
    let ladder = ladder(3, 1)?;
    let mut given = sheet(3, 0);
    given.order[0] = 3;
    given.order[2] = 1;
    assert_eq!(rt; check(&given, &ladder).err(), None);
    given.order[2] = 3;
    assert_eq!(rt; check(&given, &ladder).err(), of_sheet(9));
    Ok(())
}

#[test]
fn counts_of_a_catalogue(rt: HostRuntime) -> Result<(), Fail> {
    let given = sheet(3, 1);
    assert_eq!(rt; check(&given, &ladder(3, 2)?).err(), None);
    assert_eq!(rt; check(&given, &ladder(2, 2)?).err(), fault(3, 12, 2, 0, 2));
    assert_eq!(rt; check(&given, &ladder(3, 3)?).err(), fault(3, 12, 3, 0, 3));
    // A sheet has a place, so that no job opens with a catalogue that has none.
    assert_eq!(rt;
        check(&sheet(1, 1), &ladder(0, 2)?).err(),
        fault(3, 12, 0, 0, 2)
    );
    Ok(())
}

// One place, and behind it one whose amounts pass the bound in row 1 with version 3, and in row 0 with version 4.
fn falling(count: u8) -> Result<Ladder, Fail> {
    let mut made = ladder(1, 2)?;
    let mut rungs = [Rung::default(); MOST_ROWS];
    rungs[0] = Rung {
        base: -999_998,
        step: -1,
    };
    rungs[1] = Rung {
        base: -999_999,
        step: -1,
    };
    made.add(count, rungs)?;
    Ok(made)
}

#[test]
fn amounts_of_a_catalogue(rt: HostRuntime) -> Result<(), Fail> {
    let given = sheet(2, 1);
    assert_eq!(rt; check(&given, &falling(2)?).err(), None);
    assert_eq!(rt; check(&given, &falling(3)?).err(), fault(3, 13, 2, 3, 1));
    Ok(())
}

#[test]
fn the_earlier_test_wins(rt: HostRuntime) -> Result<(), Fail> {
    let wrong = falling(4)?;
    let mut given = sheet(2, 2);
    given.order[1] = 1;
    assert_eq!(rt; check(&given, &wrong).err(), of_sheet(9));
    given.rows[1].kind = 0;
    given.rows[1].limit = 20_000_001;
    assert_eq!(rt; check(&given, &wrong).err(), of_sheet(7));
    given.rows[0].limit = 20_000_001;
    assert_eq!(rt; check(&given, &wrong).err(), of_sheet(8));
    given.places = 17;
    assert_eq!(rt; check(&given, &wrong).err(), of_sheet(6));
    // The counts before the amounts; and of those, the lower version before the lower row.
    assert_eq!(rt; check(&sheet(2, 0), &wrong).err(), fault(3, 12, 2, 0, 2));
    assert_eq!(rt; check(&sheet(2, 1), &wrong).err(), fault(3, 13, 2, 3, 1));
    Ok(())
}
