// Choices, judged by what was drawn: neither the chooser, nor the program that tries every choice, nor the catalogue has a part in it.
use crate::draws::Draw;
use crate::jobs::Drawn;
use crate::limits::{Limits, breaks};
use rules::{Kind, MOST_PLACES};

impl Drawn {
    // What the amounts of a row come to, with the version of each place, or none where there is no such amount.
    pub(crate) fn total(&self, row: u8, versions: &[u8; MOST_PLACES]) -> Option<i64> {
        let mut total = None;
        for (place, version) in self.table.iter().zip(versions) {
            let index = usize::from(*version).checked_sub(1)?;
            let amount = i64::from(*place.get(index)?.get(usize::from(row))?);
            total = Some(match (total, self.kind(row)) {
                (None, _) => amount,
                (Some(total), Kind::GreatestAtMost) => amount.max(total),
                (Some(total), Kind::SumAtMost | Kind::SumAtLeast) => amount.saturating_add(total),
            });
        }
        total
    }

    // Whether a choice keeps the limit of a row.
    fn keeps_row(&self, row: u8, versions: &[u8; MOST_PLACES], limit: i64) -> bool {
        let total = self.total(row, versions);
        total.is_some_and(|total| !breaks(self.kind(row), total, limit))
    }

    // Whether a choice keeps the limits.
    pub(crate) fn keeps(&self, versions: &[u8; MOST_PLACES], limits: &Limits) -> bool {
        (0..=self.sheet.last_row).all(|row| self.keeps_row(row, versions, limits.at(row)))
    }

    // A choice at random, with version 1 past the last place.
    pub(crate) fn draw_choice(&self, draw: &mut Draw) -> [u8; MOST_PLACES] {
        let mut versions = [1; MOST_PLACES];
        for (place, version) in self.table.iter().zip(versions.iter_mut()) {
            let count = u8::try_from(place.len()).unwrap_or(1);
            *version = draw.byte(1, count);
        }
        versions
    }

    // How many versions a place has.
    pub(crate) fn count(&self, place: u8) -> usize {
        let index = usize::from(place).checked_sub(1);
        index
            .and_then(|index| self.table.get(index))
            .map_or(0, |place| place.len())
    }

    // How many choices there are, if they can be counted.
    pub(crate) fn choices(&self) -> Option<u64> {
        let mut choices: u64 = 1;
        for place in &self.table {
            choices = choices.checked_mul(place.len() as u64)?;
        }
        Some(choices)
    }

    // How many part-choices there are, if they can be counted.
    pub(crate) fn part_choices(&self) -> Option<u64> {
        let mut ways: u64 = 1;
        let mut all: u64 = 1;
        let places = usize::from(self.sheet.places);
        for place in self.sheet.order.iter().take(places).rev() {
            ways = ways.checked_mul(self.count(*place) as u64)?;
            all = all.checked_add(ways)?;
        }
        Some(all)
    }
}
