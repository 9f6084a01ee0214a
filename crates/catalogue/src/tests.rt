use super::*;
use rules::{MOST_PLACES, MOST_ROWS, MOST_VERSIONS, Refusal};
use std::process::Abort;
use std::test::Fail;

// The same rung in each row.
fn in_each_row(base: i32, step: i32) -> [Rung; MOST_ROWS] {
    [Rung { base, step }; MOST_ROWS]
}

// A ladder with so many places, each with two versions; the base of a place is its number more than the one given.
fn ladder(rt: &impl Abort, rows: u8, places: u8, base: i32) -> Result<Ladder, Fail> {
    let mut made = Ladder::new(rows)?;
    for place in 1..=places {
        assert_eq!(rt;
            made.add(2, in_each_row(base.wrapping_add(i32::from(place)), 5)),
            Ok(())
        );
    }
    Ok(made)
}

#[test]
fn amounts_on_a_rung(rt: HostRuntime) -> Result<(), Fail> {
    let mut made = ladder(&rt, 2, 0, 0)?;
    let mut rungs = in_each_row(10, -4);
    rungs[1] = Rung {
        base: i32::MAX,
        step: i32::MIN,
    };
    assert_eq!(rt; made.add(MOST_VERSIONS, rungs), Ok(()));
    assert_eq!(rt; made.places(), 1);
    assert_eq!(rt; made.rows(), 2);
    assert_eq!(rt; made.versions(1), Some(MOST_VERSIONS));
    assert_eq!(rt; made.amount(0, 1, 1), Some(10));
    assert_eq!(rt; made.amount(0, 1, 4), Some(-2));
    assert_eq!(rt; made.amount(1, 1, MOST_VERSIONS), Some(-64_424_509_441));
    assert_eq!(rt; made.add(3, in_each_row(40, 15)), Ok(()));
    assert_eq!(rt; made.amount(0, 2, 3), Some(70));
    let low = Rung {
        base: i32::MIN,
        step: i32::MIN,
    };
    assert_eq!(rt; low.at(MOST_VERSIONS), -68_719_476_736);
    let high = Rung {
        base: i32::MAX,
        step: i32::MAX,
    };
    assert_eq!(rt; high.at(MOST_VERSIONS), 68_719_476_704);
    Ok(())
}

#[test]
fn none_outside(rt: HostRuntime) -> Result<(), Fail> {
    let made = ladder(&rt, 3, 1, 0)?;
    assert_eq!(rt; made.versions(0), None);
    assert_eq!(rt; made.versions(2), None);
    assert_eq!(rt; made.amount(2, 1, 2), Some(6));
    assert_eq!(rt; made.amount(3, 1, 2), None);
    assert_eq!(rt; made.amount(2, 0, 2), None);
    assert_eq!(rt; made.amount(2, 2, 2), None);
    assert_eq!(rt; made.amount(2, 1, 0), None);
    assert_eq!(rt; made.amount(2, 1, 3), None);
    Ok(())
}

#[test]
fn refused_at_the_bounds(rt: HostRuntime) -> Result<(), Fail> {
    assert_eq!(rt; Ladder::new(0).err(), Some(Refusal::CountOutside));
    assert_eq!(rt; Ladder::new(10).err(), Some(Refusal::CountOutside));
    let mut made = ladder(&rt, 9, 15, 0)?;
    assert_eq!(rt;
        made.add(0, in_each_row(1, 1)),
        Err(Refusal::VersionsOutside)
    );
    assert_eq!(rt;
        made.add(MOST_VERSIONS + 1, in_each_row(1, 1)),
        Err(Refusal::VersionsOutside)
    );
    assert_eq!(rt; made.places(), 15);
    assert_eq!(rt; made.add(MOST_VERSIONS, in_each_row(1, 1)), Ok(()));
    assert_eq!(rt;
        made.add(1, in_each_row(7, 7)),
        Err(Refusal::PlaceOutOfTurn)
    );
    assert_eq!(rt; made.places(), MOST_PLACES as u8);
    assert_eq!(rt; made.versions(16), Some(MOST_VERSIONS));
    assert_eq!(rt; made.amount(8, 16, 2), Some(2));
    Ok(())
}

#[test]
fn beside_up_to_the_last_place(rt: HostRuntime) -> Result<(), Fail> {
    let both = Beside::new(ladder(&rt, 2, 10, 100)?, ladder(&rt, 4, 9, 200)?);
    assert_eq!(rt; both.places(), MOST_PLACES as u8);
    assert_eq!(rt; both.rows(), 2);
    assert_eq!(rt; both.versions(0), None);
    assert_eq!(rt; both.versions(16), Some(2));
    assert_eq!(rt; both.versions(17), None);
    assert_eq!(rt; both.amount(1, 10, 1), Some(110));
    assert_eq!(rt; both.amount(1, 11, 2), Some(206));
    assert_eq!(rt; both.amount(1, 16, 1), Some(206));
    assert_eq!(rt; both.amount(2, 16, 1), None);
    assert_eq!(rt; both.amount(1, 17, 1), None);
    Ok(())
}

// Three bytes, and then the fields of two versions of place 1 and one of place 2, with two rows each.
const FIELDS: &[u8; 39] =
    b"abc\x04\0\x09\x01\0\0\0\x05\xff\xff\xff\xff\x04\0\x09\x01\x80\0\0\0\x7f\xff\xff\xff\x04\0\x09\x02\x01\x02\x03\x04\xff\xff\xff\0";

#[test]
fn amounts_in_version_fields(rt: HostRuntime) -> Result<(), Fail> {
    let mut places = Listing::new(FIELDS.len(), 2)?;
    assert_eq!(rt; places.add_version(), Err(Refusal::PlaceOutOfTurn));
    assert_eq!(rt; places.add_place(3), Ok(()));
    assert_eq!(rt; places.add_version(), Ok(()));
    assert_eq!(rt; places.add_place(28), Err(Refusal::FieldCut));
    assert_eq!(rt; places.add_place(27), Ok(()));
    assert_eq!(rt; places.add_version(), Err(Refusal::FieldCut));
    let made = Listed::new(FIELDS, places);
    assert_eq!(rt; made.places(), 2);
    assert_eq!(rt; made.rows(), 2);
    assert_eq!(rt; made.versions(0), None);
    assert_eq!(rt; made.versions(1), Some(2));
    assert_eq!(rt; made.versions(2), Some(1));
    assert_eq!(rt; made.versions(3), None);
    assert_eq!(rt; made.amount(0, 1, 1), Some(5));
    assert_eq!(rt; made.amount(1, 1, 1), Some(-1));
    assert_eq!(rt; made.amount(0, 1, 2), Some(i64::from(i32::MIN)));
    assert_eq!(rt; made.amount(1, 1, 2), Some(i64::from(i32::MAX)));
    assert_eq!(rt; made.amount(0, 2, 1), Some(16_909_060));
    assert_eq!(rt; made.amount(1, 2, 1), Some(-256));
    assert_eq!(rt; made.amount(2, 1, 1), None);
    assert_eq!(rt; made.amount(0, 0, 1), None);
    assert_eq!(rt; made.amount(0, 3, 1), None);
    assert_eq!(rt; made.amount(0, 1, 0), None);
    assert_eq!(rt; made.amount(0, 2, 2), None);
    let both = Beside::new(made, ladder(&rt, 2, 1, 10)?);
    assert_eq!(rt; both.amount(0, 3, 1), Some(11));
    Ok(())
}

#[test]
fn listings_refused_at_the_bounds(rt: HostRuntime) -> Result<(), Fail> {
    assert_eq!(rt; Listing::new(400, 0).err(), Some(Refusal::CountOutside));
    assert_eq!(rt; Listing::new(400, 10).err(), Some(Refusal::CountOutside));
    let mut places = Listing::new(400, 1)?;
    assert_eq!(rt; places.add_place(usize::MAX), Err(Refusal::FieldCut));
    assert_eq!(rt; places.add_place(0), Ok(()));
    for _ in 1..MOST_VERSIONS {
        assert_eq!(rt; places.add_version(), Ok(()));
    }
    assert_eq!(rt; places.add_version(), Err(Refusal::VersionsOutside));
    for _ in 1..MOST_PLACES {
        assert_eq!(rt; places.add_place(392), Ok(()));
    }
    assert_eq!(rt; places.add_place(0), Err(Refusal::PlaceOutOfTurn));
    let bytes = [1; 4];
    let made = Listed::new(&bytes, places);
    assert_eq!(rt; made.places(), MOST_PLACES as u8);
    assert_eq!(rt; made.versions(1), Some(MOST_VERSIONS));
    assert_eq!(rt; made.versions(16), Some(1));
    assert_eq!(rt; made.amount(0, 16, 1), Some(0));
    Ok(())
}
