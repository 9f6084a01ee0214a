// Verdicts held against every choice.
use crate::draws::Draw;
use crate::grounds::check_ground;
use crate::judges::Judge;
use crate::limits::Limits;
use crate::said::{Best, Said, Verdict};
use anyhow::{Context, Result, ensure};

// So many choices are drawn at a close.
const CHOICES: u32 = 8;

// A search makes fewer steps than twice as many as there are part-choices.
fn check_steps(judge: &Judge<'_>, steps: u32) -> Result<()> {
    let part_choices = judge.job.part_choices();
    let twice = part_choices.and_then(|count| count.checked_mul(2));
    ensure!(
        u64::from(steps) < twice.context("too many part-choices")?,
        "{steps} steps are too many"
    );
    Ok(())
}

// The best choice has a version for each place, keeps the limits, costs what is said, and is not cheaper than the least.
fn check_best(judge: &Judge<'_>, limits: &Limits, least: Option<i64>, best: &Best) -> Result<()> {
    let Best {
        price,
        places,
        versions,
    } = best;
    ensure!(
        *places == usize::from(judge.job.sheet.places),
        "a choice of {places} places"
    );
    judge.check_choice(limits, versions, *price)?;
    judge.check_other(limits, least, versions)?;
    Ok(())
}

// A search that has ended names a least price, or none where there is none.
fn check_end(said: &Said, least: Option<i64>) -> Result<()> {
    let told = said.best.map(|best| best.price);
    ensure!(
        told == least,
        "{told:?} is told, and the least is {least:?}"
    );
    Ok(())
}

// Holds a verdict at the limits in force against every choice. The least price, if there is one.
pub(crate) fn check_verdict(
    judge: &Judge<'_>,
    limits: &Limits,
    said: &Said,
) -> Result<Option<i64>> {
    let least = judge.least(limits)?;
    check_steps(judge, said.steps)?;
    if let Some(best) = &said.best {
        check_best(judge, limits, least, best)?;
    }
    if matches!(said.verdict, Verdict::Least | Verdict::Nothing) {
        check_end(said, least)?;
    }
    if let Some(ground) = &said.ground {
        check_ground(judge.job, &said.limits_closed(limits), ground)?;
    }
    Ok(least)
}

// Holds a least price against choices that are drawn. How many of them keep the limits.
pub(crate) fn check_choices(
    judge: &Judge<'_>,
    draw: &mut Draw,
    limits: &Limits,
    least: Option<i64>,
) -> Result<u32> {
    let mut kept: u32 = 0;
    for _ in 0..CHOICES {
        let versions = judge.job.draw_choice(draw);
        let keeps = judge.check_other(limits, least, &versions)?;
        kept = kept.saturating_add(u32::from(keeps));
    }
    Ok(kept)
}
