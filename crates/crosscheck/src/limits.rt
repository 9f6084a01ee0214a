// Lists of limits, and how a limit is broken.
use crate::draws::Draw;
use rules::{Kind, MOST_ROWS, Sheet};
use std::array;

// A limit for each row, that of row 0 being the price cap. Those past the last row are 0.
#[derive(Clone, Copy, Debug, PartialEq, Eq)]
pub(crate) struct Limits {
    pub(crate) rows: [i64; MOST_ROWS],
}

impl Limits {
    // A limit of 0 for each row.
    pub(crate) fn none() -> Limits {
        Limits {
            rows: [0; MOST_ROWS],
        }
    }

    // The limits of a sheet.
    pub(crate) fn of(sheet: &Sheet) -> Limits {
        let rows = array::from_fn(|row| match row.checked_sub(1) {
            None => i64::from(sheet.cap),
            Some(index) if index < usize::from(sheet.last_row) => {
                sheet.rows.get(index).map_or(0, |row| i64::from(row.limit))
            }
            Some(_) => 0,
        });
        Limits { rows }
    }

    // The same, but for the limit of a row.
    pub(crate) fn with(mut self, row: u8, limit: i64) -> Limits {
        if let Some(kept) = self.rows.get_mut(usize::from(row)) {
            *kept = limit;
        }
        self
    }

    // The limit of a row.
    pub(crate) fn at(&self, row: u8) -> i64 {
        self.rows.get(usize::from(row)).copied().unwrap_or(0)
    }
}

// Whether a total breaks a limit.
pub(crate) fn breaks(kind: Kind, total: i64, limit: i64) -> bool {
    match kind {
        Kind::SumAtMost | Kind::GreatestAtMost => total > limit,
        Kind::SumAtLeast => total < limit,
    }
}

// A limit moved by so much to the stricter side.
pub(crate) fn stricter(kind: Kind, limit: i64, by: i64) -> i64 {
    match kind {
        Kind::SumAtMost | Kind::GreatestAtMost => limit.saturating_sub(by),
        Kind::SumAtLeast => limit.saturating_add(by),
    }
}

// The loosest limit that a sheet can hold.
pub(crate) fn loosest(kind: Kind) -> i64 {
    match kind {
        Kind::SumAtMost | Kind::GreatestAtMost => i64::from(i32::MAX),
        Kind::SumAtLeast => i64::from(i32::MIN),
    }
}

// How much looser a limit is than a total: mostly not at all or little.
fn draw_slack(draw: &mut Draw) -> i32 {
    match draw.below(24) {
        0 => draw.between(-3, -1),
        1..=11 => 0,
        12..=19 => draw.between(0, 20),
        _ => draw.between(0, 2_000_000),
    }
}

// A limit around a total, mostly one that the total keeps.
pub(crate) fn draw_around(draw: &mut Draw, kind: Kind, total: i64) -> i64 {
    let slack = i64::from(draw_slack(draw));
    stricter(kind, total, slack.saturating_neg())
}
