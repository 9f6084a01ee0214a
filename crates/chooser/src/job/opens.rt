// How a job is opened.
ghost use Rattle.std.specs.Prelude.{◌≡◌, false};
ghost use Rattle.rules.specs.Openings.{opening};
ghost use Rattle.rules.specs.Sheets.{limit_of};
ghost use Rattle.rules.specs.Settings.{setting};
ghost use Rattle.rules.specs.KeptJobs.{opened_with};
ghost use Rattle.search.specs.States.{limits_of};
ghost use Rattle.chooser.specs.Models.{setting_in, kept};
ghost use Rattle.chooser.specs.States.{kept_of};

use crate::job::Job;
use crate::opened::Opened;
use catalogue::Catalogue;
use opening::check;
use rules::{Fault, MOST_ROWS, Sheet};
use search::Grid;
use std::array;

// The limit that a sheet sets a row, that of row 0 being the price cap; 0 past the table.
fn limit_in(sheet: &Sheet, row: usize) -> i64
    ensures { result ≡ limit_of sheet.now row }
{
    match row.checked_sub(1) {
        Some(index) => match sheet.rows.get(index) {
            Some(row) => i64::from(row.limit),
            None => 0,
        },
        None => i64::from(sheet.cap),
    }
}

// The limits of a sheet.
fn limits_in(sheet: Sheet) -> [i64; MOST_ROWS]
    ensures { limits_of result ≡ limit_of sheet }
{
    array::from_fn(|row| limit_in(&sheet, row))
}

// What a job comes to when it is opened, or the fault that is found.
fn opened_in<C: Catalogue>(sheet: Sheet, catalogue: &C) -> Result<Opened, Fault>
    ensures job { kept false result ≡ opened_with sheet (opening (C.Catalogue.meaning catalogue.now) sheet) }
    ensures seen { let S = setting (C.Catalogue.meaning catalogue.now) sheet in setting_in S result ≡ S }
{
    let checked = check(&sheet, catalogue)?;
    Ok(Opened::new(Grid::of(&checked), limits_in(sheet)))
}

impl<C: Catalogue> Job<C> {
    // Opens a job with a sheet and a catalogue; it is closed. A fault found there stays with the job.
    pub(crate) fn open(sheet: Sheet, catalogue: C) -> Job<C>
        ensures job { kept_of result ≡ opened_with sheet (opening (C.Catalogue.meaning catalogue) sheet) }
        ensures running { result.running ≡ false }
        ensures sheet { result.sheet ≡ sheet }
        ensures catalogue { result.catalogue ≡ catalogue }
    {
        let opened = opened_in(sheet, &catalogue);
        Job {
            sheet,
            catalogue,
            opened,
            running: false,
        }
    }
}
