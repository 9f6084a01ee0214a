// Jobs of all sorts.
use crate::draws::Draw;
use crate::frames::draw_frame;
use crate::jobs::Drawn;
use crate::judges::Judge;
use crate::limits::{Limits, draw_around};
use crate::shapes::Shape;
use crate::spans::draw_spans;
use anyhow::{Context, Result};
use rules::{GREATEST_LIMIT, Sheet};
use std::alloc::Global;

// The limits of the rows from 1 on, around what the middle choice comes to.
fn draw_limits(job: &Drawn, draw: &mut Draw) -> Limits {
    let mut limits = Limits::of(&job.sheet);
    for row in 1..=job.sheet.last_row {
        let total = job.total(row, &job.middle).unwrap_or(0);
        limits = limits.with(row, draw_around(draw, job.kind(row), total));
    }
    limits
}

// A cap around a least price, or anywhere.
fn draw_cap(draw: &mut Draw, least: Option<i64>) -> i64 {
    match (least, draw.below(6)) {
        (Some(price), 0) => price.saturating_sub(1),
        (Some(price), 1) => price,
        (Some(price), 2) => price.saturating_add(1),
        (Some(price), 3) => price.saturating_add(i64::from(draw.between(0, 100))),
        (_, 4) => i64::from(draw.between(-1_000, 1_000)),
        _ => i64::from(GREATEST_LIMIT),
    }
}

// The sheet of a job with limits.
fn draw_sheet(job: &Drawn, draw: &mut Draw) -> Result<Sheet> {
    let limits = draw_limits(job, draw);
    let least = Judge::of(job)?.least(&limits)?;
    let cap = draw_cap(draw, least);
    job.sheet_at(&limits.with(0, cap))
        .context("a cap of no sheet")
}

pub(crate) fn draw_job(alloc: Global, draw: &mut Draw, shape: &Shape) -> Result<Drawn> {
    let mut job = draw_frame(alloc, draw, shape);
    let spans = draw_spans(draw);
    job.add_places(alloc, draw, shape, &spans)?;
    job.middle = job.draw_choice(draw);
    job.sheet = draw_sheet(&job, draw)?;
    Ok(job)
}
