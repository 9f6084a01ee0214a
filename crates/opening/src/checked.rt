// A sheet and a catalogue that a job opens with.
ghost use Rattle.std.specs.Prelude.{◌≡◌, None, IfOk};
ghost use Rattle.std.specs.Result.{result_err};
ghost use Rattle.std.proofs.Props.{props};
ghost use Rattle.rules.specs.Openings.{opening};

use crate::catalogues::check_catalogue;
use crate::sheets::check_sheet;
use catalogue::Catalogue;
use rules::{Fault, Sheet};

// A sheet and a catalogue with which a job opens without fault.
#[derive(Drop)]
pub struct Checked<'a, C: Catalogue> {
    pub sheet: &'a Sheet,
    pub catalogue: &'a C,
    ghost faultless: { opening (C.Catalogue.meaning catalogue.now) sheet.now ≡ None } by { Prim.hlevel props },
}

// Tests a sheet and a catalogue as an opening does: the first fault, if there is one.
pub fn check<'a, C: Catalogue>(sheet: &'a Sheet, catalogue: &'a C) -> Result<Checked<'a, C>, Fault>
    ensures told { result_err result ≡ opening (C.Catalogue.meaning catalogue.now) sheet.now }
    ensures sheet { IfOk result (λ checked. checked.sheet.now ≡ sheet.now) }
    ensures catalogue { IfOk result (λ checked. checked.catalogue.now ≡ catalogue.now) }
{
    check_sheet(sheet)?;
    check_catalogue(sheet, catalogue)?;
    Ok(Checked { sheet, catalogue })
}
