// Closing grounds: they stand at their limits, and no choice keeps limits at which they stand.
use crate::draws::Draw;
use crate::jobs::Drawn;
use crate::judges::Judge;
use crate::limits::{Limits, breaks, loosest, stricter};
use crate::said::Ground;
use anyhow::{Result, ensure};
use rules::ClosingLine;

// So many lists of limits are drawn for a closing ground.
const LISTS: u32 = 2;

impl Ground {
    pub(crate) fn lines(&self) -> &[ClosingLine] {
        self.lines.get(..self.count).unwrap_or(&[])
    }

    // Whether the ground stands at a list of limits: each constant is worse than its row's limit.
    fn stands(&self, job: &Drawn, limits: &Limits) -> bool {
        let mut lines = self.lines().iter();
        lines.all(|line| breaks(job.kind(line.row), line.constant, limits.at(line.row)))
    }
}

// A ground has a line or more, each of another row, by rising row, and of no row above the last.
fn check_lines(job: &Drawn, lines: &[ClosingLine]) -> Result<()> {
    let mut least = 0;
    ensure!(!lines.is_empty(), "a ground without a line");
    for line in lines {
        let row = line.row;
        ensure!(
            least <= row && row <= job.sheet.last_row,
            "a line of row {row}"
        );
        least = row.saturating_add(1);
    }
    Ok(())
}

// Holds a closing ground against the limits at which it has to stand.
pub(crate) fn check_ground(job: &Drawn, limits: &Limits, ground: &Ground) -> Result<()> {
    let lines = ground.lines();
    check_lines(job, lines)?;
    ensure!(
        ground.stands(job, limits),
        "{lines:?} doesn't stand at {limits:?}"
    );
    Ok(())
}

// The loosest limits that a sheet can hold.
fn loosest_of_all(job: &Drawn) -> Limits {
    let mut limits = Limits::none();
    for row in 0..=job.sheet.last_row {
        limits = limits.with(row, loosest(job.kind(row)));
    }
    limits
}

// The loosest limits at which a ground stands: nothing keeps stricter ones if nothing keeps these.
fn loosest_limits(job: &Drawn, ground: &Ground) -> Limits {
    let mut limits = loosest_of_all(job);
    for line in ground.lines() {
        let kind = job.kind(line.row);
        limits = limits.with(line.row, stricter(kind, line.constant, 1));
    }
    limits
}

// How much stricter a limit gets: mostly more than nothing.
fn draw_move(draw: &mut Draw) -> i64 {
    let by = match draw.below(10) {
        0 => draw.between(-1_000_000, 0),
        1 => draw.between(-3, 0),
        2..=4 => 0,
        5..=7 => draw.between(0, 3),
        _ => draw.between(0, 1_000_000),
    };
    i64::from(by)
}

// Limits moved at random, each by itself.
fn draw_limits(job: &Drawn, draw: &mut Draw, from: &Limits) -> Limits {
    let mut limits = *from;
    for row in 0..=job.sheet.last_row {
        let moved = stricter(job.kind(row), from.at(row), draw_move(draw));
        limits = limits.with(row, moved);
    }
    limits
}

// No choice keeps limits at which a ground stands. How many lists of limits this is: one, or none where it doesn't stand or no sheet can
// hold them.
fn check_list(judge: &Judge<'_>, ground: &Ground, limits: &Limits) -> Result<u32> {
    if judge.job.sheet_at(limits).is_none() || !ground.stands(judge.job, limits) {
        return Ok(0);
    }
    let least = judge.least(limits)?;
    let lines = ground.lines();
    ensure!(least.is_none(), "{lines:?} stands at {limits:?}");
    Ok(1)
}

// Holds a closing ground against every choice at the loosest limits, and at some that are drawn around those at which it closed a
// search. How many lists of limits these were.
pub(crate) fn check_lists(
    judge: &Judge<'_>,
    draw: &mut Draw,
    limits: &Limits,
    ground: &Ground,
) -> Result<u32> {
    let mut lists = check_list(judge, ground, &loosest_limits(judge.job, ground))?;
    for _ in 0..LISTS {
        let moved = draw_limits(judge.job, draw, limits);
        lists = lists.saturating_add(check_list(judge, ground, &moved)?);
    }
    Ok(lists)
}
