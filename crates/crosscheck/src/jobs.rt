// Jobs as they are drawn.
mod choices;

use crate::limits::Limits;
use catalogue::{Beside, Ladder, Listed, Listing, Rung};
use rules::{Kind, MOST_PLACES, MOST_ROWS, Refusal, Sheet};
use std::alloc::{AllocError, Global};

// Ladders, listed places behind them, and ladders again.
pub(crate) type Mixed<'a> = Beside<Beside<Ladder, Listed<'a>>, Ladder>;

// The amounts of a version, by row; those past the last row say nothing.
pub(crate) type Amounts = [i32; MOST_ROWS];

// A place of a ladder.
#[derive(Clone, Copy)]
pub(crate) struct LadderPlace {
    pub(crate) count: u8,
    pub(crate) rungs: [Rung; MOST_ROWS],
}

// A listed place: how many version fields it has, and the byte where the first of them begins.
#[derive(Clone, Copy)]
pub(crate) struct ListedPlace {
    pub(crate) count: u8,
    pub(crate) start: usize,
}

// A sheet with the kind of each row, and what a catalogue is made of.
#[derive(Drop)]
pub(crate) struct Drawn {
    pub(crate) sheet: Sheet,
    pub(crate) kinds: [Kind; MOST_ROWS],
    // Limits are mostly drawn around what this choice comes to.
    pub(crate) middle: [u8; MOST_PLACES],
    // The versions of each place, which the catalogue is to show: by them choices are judged here.
    pub(crate) table: Vec<Vec<Amounts>>,
    pub(crate) first: Vec<LadderPlace>,
    pub(crate) listed: Vec<ListedPlace>,
    pub(crate) fields: Vec<u8>,
    pub(crate) last: Vec<LadderPlace>,
}

// The ladder of some places.
fn ladder(rows: u8, places: &[LadderPlace]) -> Result<Ladder, Refusal> {
    let mut ladder = Ladder::new(rows)?;
    for place in places {
        ladder.add(place.count, place.rungs)?;
    }
    Ok(ladder)
}

// Adds a listed place with its versions.
fn add_listed(listing: &mut Listing, place: ListedPlace) -> Result<(), Refusal> {
    listing.add_place(place.start)?;
    for _ in 1..place.count {
        listing.add_version()?;
    }
    Ok(())
}

impl LadderPlace {
    // The amounts of a version: each is its rung's step higher than that of the version before.
    fn amounts(&self, version: u8) -> Amounts {
        let steps = i32::from(version).saturating_sub(1);
        let mut amounts = [0; MOST_ROWS];
        for (amount, rung) in amounts.iter_mut().zip(&self.rungs) {
            *amount = rung.base.saturating_add(rung.step.saturating_mul(steps));
        }
        amounts
    }

    // The amounts of all versions.
    pub(crate) fn versions(&self, alloc: Global) -> Result<Vec<Amounts>, AllocError> {
        let mut versions = Vec::new(alloc);
        for version in 1..=self.count {
            versions.push(self.amounts(version))?;
        }
        Ok(versions)
    }
}

impl Drawn {
    // A job with no place yet.
    pub(crate) fn of(alloc: Global, sheet: Sheet, kinds: [Kind; MOST_ROWS]) -> Drawn {
        Drawn {
            sheet,
            kinds,
            middle: [1; MOST_PLACES],
            table: Vec::new(alloc),
            first: Vec::new(alloc),
            listed: Vec::new(alloc),
            fields: Vec::new(alloc),
            last: Vec::new(alloc),
        }
    }

    // How many rows there are.
    pub(crate) fn rows(&self) -> u8 {
        self.sheet.last_row.saturating_add(1)
    }

    // Adds a ladder's place behind all others: in front of the listed ones or behind them.
    pub(crate) fn add_first(
        &mut self,
        alloc: Global,
        place: LadderPlace,
    ) -> Result<(), AllocError> {
        self.table.push(place.versions(alloc)?)?;
        self.first.push(place)?;
        Ok(())
    }

    pub(crate) fn add_last(&mut self, alloc: Global, place: LadderPlace) -> Result<(), AllocError> {
        self.table.push(place.versions(alloc)?)?;
        self.last.push(place)?;
        Ok(())
    }

    // The listing of the listed places.
    fn listing(&self) -> Result<Listing, Refusal> {
        let mut listing = Listing::new(self.fields.len(), self.rows())?;
        for place in &self.listed {
            add_listed(&mut listing, *place)?;
        }
        Ok(listing)
    }

    // The catalogue, made anew.
    pub(crate) fn catalogue(&self) -> Result<Mixed<'_>, Refusal> {
        let first = ladder(self.rows(), &self.first)?;
        let listed = Listed::new(&self.fields, self.listing()?);
        let last = ladder(self.rows(), &self.last)?;
        Ok(Beside::new(Beside::new(first, listed), last))
    }

    // The kind of a row.
    pub(crate) fn kind(&self, row: u8) -> Kind {
        let kind = self.kinds.get(usize::from(row)).copied();
        kind.unwrap_or(Kind::SumAtMost)
    }

    // The sheet with other limits, if it can hold them.
    pub(crate) fn sheet_at(&self, limits: &Limits) -> Option<Sheet> {
        let mut sheet = self.sheet;
        let (cap, others) = limits.rows.split_first()?;
        sheet.cap = i32::try_from(*cap).ok()?;
        for (row, limit) in sheet.rows.iter_mut().zip(others) {
            row.limit = i32::try_from(*limit).ok()?;
        }
        Some(sheet)
    }
}
