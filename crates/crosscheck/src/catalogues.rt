// Catalogues held against what was drawn: they show it, and nothing else.
use crate::jobs::{Amounts, Drawn};
use anyhow::{Result, ensure};
use catalogue::Catalogue;

// No amount is shown where none was drawn.
fn check_none<C: Catalogue>(catalogue: &C, row: u8, place: u8, version: u8) -> Result<()> {
    let shown = catalogue.amount(row, place, version);
    ensure!(
        shown.is_none(),
        "place {place}, version {version}, row {row}: {shown:?} and not none"
    );
    Ok(())
}

fn check_version<C: Catalogue>(
    catalogue: &C,
    place: u8,
    version: u8,
    amounts: &Amounts,
) -> Result<()> {
    let rows = catalogue.rows();
    for (row, amount) in (0..rows).zip(amounts) {
        let shown = catalogue.amount(row, place, version);
        ensure!(
            shown == Some(i64::from(*amount)),
            "place {place}, version {version}, row {row}: {shown:?} and not {amount}"
        );
    }
    check_none(catalogue, rows, place, version)
}

fn check_place<C: Catalogue>(catalogue: &C, place: u8, versions: &[Amounts]) -> Result<()> {
    let count = u8::try_from(versions.len())?;
    let shown = catalogue.versions(place);
    ensure!(
        shown == Some(count),
        "place {place}: {shown:?} versions and not {count}"
    );
    check_none(catalogue, 0, place, 0)?;
    check_none(catalogue, 0, place, count.saturating_add(1))?;
    for (version, amounts) in (1..=count).zip(versions) {
        check_version(catalogue, place, version, amounts)?;
    }
    Ok(())
}

// No place is shown where none was drawn.
fn check_no_place<C: Catalogue>(catalogue: &C, place: u8) -> Result<()> {
    let shown = catalogue.versions(place);
    ensure!(
        shown.is_none(),
        "place {place}: {shown:?} versions and not none"
    );
    check_none(catalogue, 0, place, 1)
}

pub(crate) fn check_catalogue<C: Catalogue>(job: &Drawn, catalogue: &C) -> Result<()> {
    let places = job.sheet.places;
    let drawn = job.table.len();
    ensure!(drawn == usize::from(places), "{drawn} places are drawn");
    let shown = (catalogue.places(), catalogue.rows());
    ensure!(shown == (places, job.rows()), "{shown:?} places and rows");
    check_no_place(catalogue, 0)?;
    check_no_place(catalogue, places.saturating_add(1))?;
    for (place, versions) in (1..=places).zip(&job.table) {
        check_place(catalogue, place, versions)?;
    }
    Ok(())
}
