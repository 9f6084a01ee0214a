// The places of a job of all sorts: ladders, listed ones behind them, and ladders again.
use crate::draws::Draw;
use crate::jobs::{Amounts, Drawn, LadderPlace, ListedPlace};
use crate::shapes::Shape;
use crate::spans::Span;
use catalogue::Rung;
use rules::MOST_ROWS;
use std::alloc::{AllocError, Global};

// The tag of a version field, as in a job file.
const VERSION_TAG: u8 = 4;

// The last place of the ladders in front, and the last that is listed.
#[derive(Clone, Copy)]
struct Layout {
    first: u8,
    listed: u8,
}

impl Layout {
    fn draw(draw: &mut Draw, places: u8) -> Layout {
        let one = draw.byte(0, places);
        let other = draw.byte(0, places);
        Layout {
            first: one.min(other),
            listed: one.max(other),
        }
    }
}

// How many versions a place has, so many choices being left.
fn draw_count(draw: &mut Draw, shape: &Shape, left: &mut u32) -> u8 {
    let most = shape.most_versions.min(*left);
    let least = shape.least_versions.min(most);
    let above = draw.below(most.saturating_sub(least).saturating_add(1));
    let count = least.saturating_add(above);
    *left = left.checked_div(count).unwrap_or(1);
    u8::try_from(count).unwrap_or(1)
}

// A place of a ladder.
fn draw_ladder(draw: &mut Draw, spans: &[Span; MOST_ROWS], count: u8) -> LadderPlace {
    let mut rungs = [Rung::default(); MOST_ROWS];
    for (rung, span) in rungs.iter_mut().zip(spans) {
        *rung = span.rung(draw, count);
    }
    LadderPlace { count, rungs }
}

// The amounts of a version, each within the span of its row.
fn draw_amounts(draw: &mut Draw, spans: &[Span; MOST_ROWS]) -> Amounts {
    let mut amounts = [0; MOST_ROWS];
    for (amount, span) in amounts.iter_mut().zip(spans) {
        *amount = span.amount(draw);
    }
    amounts
}

impl Drawn {
    // Bytes that say nothing.
    fn add_bytes(&mut self, draw: &mut Draw) -> Result<(), AllocError> {
        for _ in 0..draw.below(4) {
            self.fields.push(draw.byte(0, u8::MAX))?;
        }
        Ok(())
    }

    // The version field of a place, as in a job file.
    fn add_field(&mut self, place: u8, amounts: &Amounts) -> Result<(), AllocError> {
        let rows = self.rows();
        let length = u16::from(rows).saturating_mul(4).saturating_add(1);
        let [high, low] = length.to_be_bytes();
        let front = [VERSION_TAG, high, low, place];
        self.fields.extend_from_slice(&front)?;
        for amount in amounts.iter().take(usize::from(rows)) {
            self.fields.extend_from_slice(&amount.to_be_bytes())?;
        }
        Ok(())
    }

    // A listed place behind all others, with bytes that say nothing in front.
    fn add_listed(
        &mut self,
        alloc: Global,
        draw: &mut Draw,
        spans: &[Span; MOST_ROWS],
        count: u8,
    ) -> Result<(), AllocError> {
        self.add_bytes(draw)?;
        let start = self.fields.len();
        let place = u8::try_from(self.table.len()).unwrap_or(u8::MAX);
        let mut versions = Vec::new(alloc);
        for _ in 0..count {
            let amounts = draw_amounts(draw, spans);
            self.add_field(place.saturating_add(1), &amounts)?;
            versions.push(amounts)?;
        }
        self.table.push(versions)?;
        self.listed.push(ListedPlace { count, start })?;
        Ok(())
    }

    // All places.
    pub(crate) fn add_places(
        &mut self,
        alloc: Global,
        draw: &mut Draw,
        shape: &Shape,
        spans: &[Span; MOST_ROWS],
    ) -> Result<(), AllocError> {
        let places = self.sheet.places;
        let layout = Layout::draw(draw, places);
        let mut left = shape.most_choices;
        for place in 1..=places {
            let count = draw_count(draw, shape, &mut left);
            if place <= layout.first {
                self.add_first(alloc, draw_ladder(draw, spans, count))?;
            } else if place <= layout.listed {
                self.add_listed(alloc, draw, spans, count)?;
            } else {
                self.add_last(alloc, draw_ladder(draw, spans, count))?;
            }
        }
        Ok(())
    }
}
