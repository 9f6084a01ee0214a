// How a grid is made.
ghost use Rattle.std.specs.Prelude.{◌≡◌, ◌+◌};
ghost use Rattle.rules.specs.Settings.{place_at, amount_in, setting as setting_of};
ghost use Rattle.search.specs.Settings.{setting};
ghost use Rattle.search.specs.Made.{kind_at, kinds_in, amounts_in, position_in, positions_in};

use crate::grid::Grid;
use crate::position::{Amounts, Position};
use catalogue::Catalogue;
use opening::Checked;
use rules::{Kind, MOST_PLACES, MOST_ROWS, Row};
use std::array;

// The kind of a row, in a table that begins with row 1. A number that stands for none, as there may be past the last row, is read
// as the price's.
fn kind_at(rows: &[Row], row: usize) -> Kind
    ensures { result ≡ kind_at rows.now row }
{
    match row.checked_sub(1).and_then(|index| rows.get(index)) {
        Some(row) => Kind::try_from(row.kind).unwrap_or(Kind::SumAtMost),
        None => Kind::SumAtMost,
    }
}

// The kinds of the rows, in a table that begins with row 1.
fn kinds_in(rows: &[Row]) -> [Kind; MOST_ROWS]
    ensures { result ≡ kinds_in rows.now }
{
    array::from_fn(|row| kind_at(rows, row))
}

// The place at an index of an order, that of position 1 being at 0, and 0 past the last.
fn place_at(order: &[u8], index: usize) -> u8
    ensures { result ≡ place_at order.now (index + 1) }
{
    order.get(index).copied().unwrap_or(0)
}

// The amount of a row at a place with a version, and 0 where there is none. One that there is was checked, and fits.
fn amount_in<C: Catalogue>(checked: &Checked<'_, C>, row: u8, place: u8, version: u8) -> i32
    ensures { result ≡ amount_in (C.Catalogue.meaning checked.now.catalogue.now) row place version }
{
    let amount = checked.catalogue.amount(row, place, version);
    amount.unwrap_or(0) as i32
}

// The amounts of a version of a place.
fn amounts_in<C: Catalogue>(checked: &Checked<'_, C>, place: u8, version: u8) -> Amounts
    ensures { result ≡ amounts_in (C.Catalogue.meaning checked.now.catalogue.now) place version }
{
    Amounts {
        rows: array::from_fn(|row| amount_in(checked, row as u8, place, version)),
    }
}

// What can be chosen at a place.
fn position_in<C: Catalogue>(checked: &Checked<'_, C>, place: u8) -> Position
    ensures { result ≡ position_in (C.Catalogue.meaning checked.now.catalogue.now) place }
{
    Position {
        count: checked.catalogue.versions(place).unwrap_or(0),
        versions: array::from_fn(|index| amounts_in(checked, place, index as u8 + 1)),
    }
}

// What can be chosen at each position.
fn positions_in<C: Catalogue>(checked: &Checked<'_, C>) -> [Position; MOST_PLACES]
    ensures { result ≡ positions_in (C.Catalogue.meaning checked.now.catalogue.now) checked.now.sheet.now }
{
    let sheet = checked.sheet;
    let order = &sheet.order[..usize::from(sheet.places)];
    array::from_fn(|index| position_in(checked, place_at(order, index)))
}

impl Grid {
    // A sheet and a catalogue as a table, by position.
    pub fn of<C: Catalogue>(checked: &Checked<'_, C>) -> Grid
        ensures { setting result ≡ setting_of (C.Catalogue.meaning checked.now.catalogue.now) checked.now.sheet.now }
    {
        let sheet = checked.sheet;
        Grid {
            places: usize::from(sheet.places),
            last_row: usize::from(sheet.last_row),
            kinds: kinds_in(&sheet.rows),
            positions: positions_in(checked),
        }
    }
}
