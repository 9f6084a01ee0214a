// A choice as it is tried: what its rows come to, and whether it keeps the limits.
ghost use Rattle.std.specs.Prelude.{◌≡◌, ◌-◌, ◌≤◌, true, false, slice_set, replicate, IfOk, MatchResult};
ghost use Rattle.rules.specs.declared.refusals.Refusal.TheVariants.{CountsDiffer, UnknownKind};
ghost use Rattle.rules.specs.Bounds.{most_places, greatest_row};
ghost use Rattle.rules.specs.Sheets.{last_row, kind_of, limit_of};
ghost use Rattle.rules.specs.Choices.{price};
ghost use Rattle.rules.specs.Settings.{versions_in};
ghost use Rattle.exhaustive.specs.Trials.{guarded, joined, row_kept, all_kept, judged, kinds_known};
ghost use Rattle.rules.specs.Openings.{counts_same};

use crate::found::Found;
use catalogue::Catalogue;
use joining::{GreatestAtMost, Joining, SumAtLeast, SumAtMost, total};
use rules::{Kind, MOST_PLACES, Refusal, Row, Sheet};

// The versions that are tried, by place, with the sheet and a catalogue that has its counts.
#[derive(Drop)]
pub(crate) struct Trial<'a, C: Catalogue> {
    pub(crate) sheet: &'a Sheet,
    catalogue: &'a C,
    // Whole, as `Found` has it: a place not yet set has 0.
    versions: [u8; MOST_PLACES],
    ghost few_places: { sheet.now.places ≤ most_places },
    ghost few_rows: { last_row sheet.now ≤ greatest_row },
}

impl<'a, C: Catalogue> Trial<'a, C> {
    // No versions yet, unless the sheet has other counts than the catalogue.
    pub(crate) fn blank(sheet: &'a Sheet, catalogue: &'a C) -> Result<Self, Refusal>
        ensures counts { MatchResult result (λ _. counts_same (C.Catalogue.meaning catalogue.now) sheet.now ≡ true) (λ e. (e ≡ CountsDiffer) × (counts_same (C.Catalogue.meaning catalogue.now) sheet.now ≡ false)) }
        ensures sheet { IfOk result (λ t. t.sheet.now ≡ sheet.now) }
        ensures catalogue { IfOk result (λ t. t.catalogue.now ≡ catalogue.now) }
        ensures versions { IfOk result (λ t. t.versions ≡ replicate most_places 0) }
    {
        // Every catalogue has the price's row, so there is one to take away.
        if catalogue.places() != sheet.places || catalogue.rows() - 1 != sheet.last_row {
            return Err(Refusal::CountsDiffer);
        }
        Ok(Trial {
            sheet,
            catalogue,
            versions: [0; MOST_PLACES],
        })
    }

    // The same, but for the version of a place.
    pub(crate) fn with(&self, place: u8, version: u8) -> Self
        requires numbered { 1 ≤ place }
        requires few { place ≤ most_places }
        ensures sheet { result.sheet.now ≡ self.now.sheet.now }
        ensures catalogue { result.catalogue.now ≡ self.now.catalogue.now }
        ensures versions { result.versions ≡ slice_set self.now.versions (place - 1) version }
    {
        let mut versions = self.versions;
        versions[usize::from(place) - 1] = version;
        Trial {
            sheet: self.sheet,
            catalogue: self.catalogue,
            versions,
        }
    }

    // The versions of a place, and 0 where there is no such place, as the definition of a choice has it.
    pub(crate) fn versions_in(&self, place: u8) -> u8
        ensures { result ≡ versions_in (C.Catalogue.meaning self.now.catalogue.now) place }
    {
        self.catalogue.versions(place).unwrap_or(0)
    }

    // The amounts of a row joined over all places.
    fn joined<J: Joining>(&self, row: u8) -> i64
        ensures { result ≡ joined (guarded (C.Catalogue.meaning self.now.catalogue.now)) self.now.sheet.now J.Joining.rule row self.now.versions }
    {
        total::<J, C>(self.catalogue, row, self.sheet.places, &self.versions)
    }

    // What the choice costs.
    fn price(&self) -> i64
        ensures { result ≡ price (guarded (C.Catalogue.meaning self.now.catalogue.now)) self.now.sheet.now self.now.versions }
    {
        self.joined::<SumAtMost>(0)
    }

    // The number of a row's kind, and its limit.
    fn row(&self, row: u8) -> Row
        ensures kind { result.kind ≡ kind_of self.now.sheet.now row }
        ensures limit { result.limit ≡ limit_of self.now.sheet.now row }
    {
        if row == 0 {
            return Row {
                kind: Kind::SumAtMost.number(),
                limit: self.sheet.cap,
            };
        }
        let index = usize::from(row) - 1;
        self.sheet.rows.get(index).copied().unwrap_or_default()
    }

    // Refuses a row whose kind there isn't.
    pub(crate) fn known_kinds(&self) -> Result<(), Refusal>
        ensures { MatchResult result (λ _. kinds_known self.now.sheet.now ≡ true) (λ e. (e ≡ UnknownKind) × (kinds_known self.now.sheet.now ≡ false)) }
    {
        for row in &self.sheet.rows[..usize::from(self.sheet.last_row)] {
            Kind::try_from(row.kind)?;
        }
        Ok(())
    }

    // Whether the total of a row breaks its limit.
    fn breaks<J: Joining>(&self, row: u8) -> bool
        ensures { result ≡ J.Joining.rule.worse (joined (guarded (C.Catalogue.meaning self.now.catalogue.now)) self.now.sheet.now J.Joining.rule row self.now.versions) (limit_of self.now.sheet.now row) }
    {
        J::is_worse(self.joined::<J>(row), i64::from(self.row(row).limit))
    }

    // Whether the limit of a row is kept.
    fn keeps_row(&self, row: u8) -> bool
        ensures { result ≡ row_kept (guarded (C.Catalogue.meaning self.now.catalogue.now)) self.now.sheet.now self.now.versions row }
    {
        // A joining is a type, so each kind has an arm; a number that stands for none is read as the price's.
        let broken = match Kind::try_from(self.row(row).kind) {
            Ok(Kind::SumAtLeast) => self.breaks::<SumAtLeast>(row),
            Ok(Kind::GreatestAtMost) => self.breaks::<GreatestAtMost>(row),
            Ok(Kind::SumAtMost) | Err(_) => self.breaks::<SumAtMost>(row),
        };
        !broken
    }

    // Whether the limits of all rows are kept.
    fn keeps(&self) -> bool
        ensures { result ≡ all_kept (guarded (C.Catalogue.meaning self.now.catalogue.now)) self.now.sheet.now self.now.versions }
    {
        (0..=self.sheet.last_row).all(|row| self.keeps_row(row))
    }

    // The choice with its price, if it keeps the limits.
    pub(crate) fn judge(&self) -> Option<Found>
        ensures { result ≡ judged (guarded (C.Catalogue.meaning self.now.catalogue.now)) self.now.sheet.now self.now.versions }
    {
        if !self.keeps() {
            return None;
        }
        Some(Found {
            versions: self.versions,
            price: self.price(),
        })
    }
}
