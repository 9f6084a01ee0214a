// Jobs that fill the ledger. Two places are the digits of a price that falls from choice to choice; a third one has a version that no limit
// forbids, and others, each of which breaks a row of its own. So a search finds nearly each price in turn, and learns a ground after each,
// which has a line for each of those rows and one for the price.
use crate::draws::Draw;
use crate::jobs::{Drawn, LadderPlace};
use catalogue::Rung;
use rules::{GREATEST_LIMIT, GREATEST_ROW, Kind, MOST_PLACES, MOST_ROWS, Row, Sheet};
use std::alloc::{AllocError, Global};

// The third place has at most so many versions.
const MOST_COUNT: u8 = 8;

// A digit has so many versions.
const LEAST_DIGITS: u8 = 24;

const MOST_DIGITS: u8 = 32;

// A digit: each version costs so much less than the one before.
fn digit(count: u8, fall: i32) -> LadderPlace {
    let above = i32::from(count).saturating_sub(1);
    let mut rungs = [Rung::default(); MOST_ROWS];
    rungs[0] = Rung {
        base: above.saturating_mul(fall),
        step: fall.saturating_neg(),
    };
    LadderPlace { count, rungs }
}

// A place of which version 1 breaks no row at a limit of 0, version 2 the last row, and each one after it a row more.
fn forbidden(draw: &mut Draw, count: u8) -> LadderPlace {
    let mut rungs = [Rung::default(); MOST_ROWS];
    let mut base = 1 - i32::from(count);
    for rung in rungs.iter_mut() {
        *rung = Rung { base, step: 1 };
        base = base.saturating_add(1);
    }
    let step = draw.between(-2_000, 0);
    rungs[0] = Rung { base: 0, step };
    LadderPlace { count, rungs }
}

// A sheet of three places, of which the first gives way first, with so many rows whose limit is 0.
fn draw_sheet(draw: &mut Draw, last_row: u8) -> Sheet {
    let kind = Kind::SumAtMost.number();
    let mut order = [0; MOST_PLACES];
    order[0] = 1;
    order[1] = draw.byte(2, 3);
    order[2] = if order[1] == 2 { 3 } else { 2 };
    Sheet {
        places: 3,
        last_row,
        cap: GREATEST_LIMIT as i32,
        rows: [Row { kind, limit: 0 }; GREATEST_ROW],
        order,
    }
}

pub(crate) fn draw_job(alloc: Global, draw: &mut Draw) -> Result<Drawn, AllocError> {
    let count = draw.byte(1, MOST_COUNT);
    let low = draw.byte(LEAST_DIGITS, MOST_DIGITS);
    let high = draw.byte(LEAST_DIGITS, MOST_DIGITS);
    let sheet = draw_sheet(draw, count.saturating_sub(1));
    let mut job = Drawn::of(alloc, sheet, [Kind::SumAtMost; MOST_ROWS]);
    job.add_first(alloc, forbidden(draw, count))?;
    job.add_last(alloc, digit(low, 1))?;
    job.add_last(alloc, digit(high, i32::from(low)))?;
    Ok(job)
}
