// The counts, kinds and order of a job of all sorts.
use crate::draws::Draw;
use crate::jobs::Drawn;
use crate::shapes::Shape;
use rules::{GREATEST_LIMIT, GREATEST_ROW, Kind, MOST_PLACES, MOST_ROWS, Row, Sheet};
use std::alloc::Global;

// One in so many orders is by number, in which many places would hardly ever come by themselves.
const BY_NUMBER: u32 = 10;

fn draw_kind(draw: &mut Draw) -> Kind {
    match draw.below(3) {
        0 => Kind::SumAtMost,
        1 => Kind::SumAtLeast,
        _ => Kind::GreatestAtMost,
    }
}

// The kinds of all rows, that of the price first.
fn draw_kinds(draw: &mut Draw) -> [Kind; MOST_ROWS] {
    let mut kinds = [Kind::SumAtMost; MOST_ROWS];
    for kind in kinds.iter_mut().skip(1) {
        *kind = draw_kind(draw);
    }
    kinds
}

// Swaps two places of an order.
fn swap(order: &mut [u8], first: usize, second: usize) {
    if first < order.len() && second < order.len() {
        order.swap(first, second);
    }
}

// The places by their numbers.
fn by_number(places: u8) -> [u8; MOST_PLACES] {
    let mut order = [0; MOST_PLACES];
    for (place, listed) in (1..=places).zip(order.iter_mut()) {
        *listed = place;
    }
    order
}

// The places in any order.
fn draw_order(draw: &mut Draw, places: u8) -> [u8; MOST_PLACES] {
    let mut order = by_number(places);
    if draw.one_in(BY_NUMBER) {
        return order;
    }
    for index in 1..places {
        let other = draw.byte(0, index);
        swap(&mut order, usize::from(index), usize::from(other));
    }
    order
}

// The rows of a sheet, with these kinds.
fn rows_of(kinds: &[Kind; MOST_ROWS]) -> [Row; GREATEST_ROW] {
    let mut rows = [Row::default(); GREATEST_ROW];
    for (row, kind) in rows.iter_mut().zip(kinds.iter().skip(1)) {
        row.kind = kind.number();
    }
    rows
}

// A job with its counts, kinds and order, and nothing else.
pub(crate) fn draw_frame(alloc: Global, draw: &mut Draw, shape: &Shape) -> Drawn {
    let places = draw.byte(shape.least_places, shape.most_places);
    let kinds = draw_kinds(draw);
    let sheet = Sheet {
        places,
        last_row: draw.byte(0, GREATEST_ROW as u8),
        cap: GREATEST_LIMIT as i32,
        rows: rows_of(&kinds),
        order: draw_order(draw, places),
    };
    Drawn::of(alloc, sheet, kinds)
}
