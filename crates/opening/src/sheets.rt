// The tests of a sheet.
ghost use Rattle.std.specs.Prelude.{◌≡◌, ◌≤◌, [], ◌∷◌};
ghost use Rattle.rules.specs.Bounds.{most_places, greatest_row};
ghost use Rattle.rules.specs.Openings.{checked, counts_test, limit_test, row_tests, rows_tests, order_test, sheet_tests};

use rules::{
    Fault, GREATEST_LIMIT, GREATEST_ROW, Kind, MOST_PLACES, Refusal, Row, Sheet, lists_each,
};

// The counts of places and rows.
fn check_counts(sheet: &Sheet) -> Result<(), Fault>
    ensures { result ≡ checked (counts_test sheet.now ∷ []) }
{
    if !(1..=MOST_PLACES).contains(&usize::from(sheet.places))
        || usize::from(sheet.last_row) > GREATEST_ROW
    {
        return Err(Fault::from(Refusal::CountOutside));
    }
    Ok(())
}

// A limit; the cap is one.
fn check_limit(limit: i32) -> Result<(), Fault>
    ensures { result ≡ checked (limit_test limit ∷ []) }
{
    if limit.unsigned_abs() > GREATEST_LIMIT {
        return Err(Fault::from(Refusal::LimitBeyond));
    }
    Ok(())
}

// A row: its kind, and its limit.
fn check_row(row: Row) -> Result<(), Fault>
    ensures { result ≡ checked (row_tests row.kind row.limit) }
{
    Kind::try_from(row.kind)?;
    check_limit(row.limit)
}

// The rows from row 1 on.
fn check_rows(sheet: &Sheet) -> Result<(), Fault>
    requires few { sheet.now.last_row ≤ greatest_row }
    ensures { result ≡ checked (rows_tests sheet.now sheet.now.last_row) }
{
    for row in &sheet.rows[..usize::from(sheet.last_row)] {
        check_row(*row)?;
    }
    Ok(())
}

// The order of the places.
fn check_order(sheet: &Sheet) -> Result<(), Fault>
    requires few { sheet.now.places ≤ most_places }
    ensures { result ≡ checked (order_test sheet.now ∷ []) }
{
    if !lists_each(sheet.places, &sheet.order[..usize::from(sheet.places)]) {
        return Err(Fault::from(Refusal::OrderNotOnce));
    }
    Ok(())
}

// All that a sheet says.
pub(crate) fn check_sheet(sheet: &Sheet) -> Result<(), Fault>
    ensures { result ≡ checked (sheet_tests sheet.now) }
{
    check_counts(sheet)?;
    check_limit(sheet.cap)?;
    check_rows(sheet)?;
    check_order(sheet)
}
