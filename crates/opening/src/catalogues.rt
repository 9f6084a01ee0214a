// The tests of a catalogue beside a sheet.
ghost use Rattle.std.specs.Prelude.{◌≡◌, ◌≤◌, true, [], ◌∷◌};
ghost use Rattle.rules.specs.declared.refusals.Refusal.TheVariants.{AmountBeyond};
ghost use Rattle.rules.specs.Refusals.{fault_at};
ghost use Rattle.rules.specs.Catalogues.{has_amount};
ghost use Rattle.rules.specs.Openings.{checked, same_counts_test, amount_test, version_tests, place_tests, each_to, catalogue_tests};

use catalogue::Catalogue;
use rules::{Fault, GREATEST_AMOUNT, Refusal, Sheet};

// The counts of places and rows, which are to be the sheet's.
fn check_counts<C: Catalogue>(sheet: &Sheet, catalogue: &C) -> Result<(), Fault>
    ensures { result ≡ checked (same_counts_test (C.Catalogue.meaning catalogue.now) sheet.now ∷ []) }
{
    let places = catalogue.places();
    let rows = catalogue.rows();
    // Every catalogue has the price's row, so there is one to take away.
    if places != sheet.places || rows - 1 != sheet.last_row {
        return Err(Fault {
            place: places,
            row: rows,
            ..Fault::from(Refusal::CountsDiffer)
        });
    }
    Ok(())
}

// One amount that the catalogue has.
fn check_amount<C: Catalogue>(catalogue: &C, place: u8, version: u8, row: u8) -> Result<(), Fault>
    requires { has_amount (C.Catalogue.meaning catalogue.now) row place version ≡ true }
    ensures { result ≡ checked (amount_test ((C.Catalogue.meaning catalogue.now).amount row place version) (fault_at AmountBeyond place version row) ∷ []) }
{
    let amount = catalogue.amount(row, place, version).unwrap_or(0);
    if amount.unsigned_abs() > GREATEST_AMOUNT {
        return Err(Fault {
            place,
            version,
            row,
            ..Fault::from(Refusal::AmountBeyond)
        });
    }
    Ok(())
}

// The amounts of a version of a place, row by row.
fn check_version<C: Catalogue>(catalogue: &C, place: u8, version: u8) -> Result<(), Fault>
    requires place { 1 ≤ place }
    requires places { place ≤ (C.Catalogue.meaning catalogue.now).places }
    requires version { 1 ≤ version }
    requires versions { version ≤ (C.Catalogue.meaning catalogue.now).versions place }
    ensures { result ≡ checked (version_tests (C.Catalogue.meaning catalogue.now) place version) }
{
    for row in 0..catalogue.rows() {
        check_amount(catalogue, place, version, row)?;
    }
    Ok(())
}

// The amounts of a place, version by version.
fn check_place<C: Catalogue>(catalogue: &C, place: u8) -> Result<(), Fault>
    requires place { 1 ≤ place }
    requires places { place ≤ (C.Catalogue.meaning catalogue.now).places }
    ensures { result ≡ checked (place_tests (C.Catalogue.meaning catalogue.now) place) }
{
    for version in 1..=catalogue.versions(place).unwrap_or(0) {
        check_version(catalogue, place, version)?;
    }
    Ok(())
}

// The amounts, place by place.
fn check_amounts<C: Catalogue>(catalogue: &C) -> Result<(), Fault>
    ensures { result ≡ checked (each_to (place_tests (C.Catalogue.meaning catalogue.now)) (C.Catalogue.meaning catalogue.now).places) }
{
    for place in 1..=catalogue.places() {
        check_place(catalogue, place)?;
    }
    Ok(())
}

// All that a catalogue says: its counts, and its amounts.
pub(crate) fn check_catalogue<C: Catalogue>(sheet: &Sheet, catalogue: &C) -> Result<(), Fault>
    ensures { result ≡ checked (catalogue_tests (C.Catalogue.meaning catalogue.now) sheet.now) }
{
    check_counts(sheet, catalogue)?;
    check_amounts(catalogue)
}
