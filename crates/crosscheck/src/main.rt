// Holds the chooser against the program that tries every choice, on jobs that are drawn from fixed sequences of numbers; how often each
// thing was met, on jobs of few places and on those of many, goes to standard output. The first that differs is told with the number of
// its job and of its call, and the program ends with status 1.
#![tactic(auto)]

mod answers;
mod calls;
mod catalogues;
mod closes;
mod counts;
mod draws;
mod filling;
mod frames;
mod grounds;
mod jobs;
mod judges;
mod limits;
mod made;
mod mixed;
mod models;
mod places;
mod plays;
mod said;
mod shapes;
mod spans;
mod states;

use anyhow::{Context, Result};
use counts::Counts;
use draws::Draw;
use jobs::Drawn;
use std::alloc::Global;

// So many jobs of few places are drawn, and after them so many of many places.
const FEW: u32 = 3_000;

const MANY: u32 = 1_000;

// One in so many jobs of few places is made to fill the ledger.
const FILLING: u32 = 30;

// One in so many jobs of many places has two versions at each.
const TWO_VERSIONS: u32 = 100;

// The job of a number.
fn drawn(alloc: Global, draw: &mut Draw, number: u32) -> Result<Drawn> {
    if number > FEW {
        let shape = if number % TWO_VERSIONS == 0 {
            shapes::TWO_AT_EACH
        } else {
            shapes::MANY_PLACES
        };
        mixed::draw_job(alloc, draw, &shape)
    } else if number % FILLING == 0 {
        Ok(filling::draw_job(alloc, draw)?)
    } else {
        mixed::draw_job(alloc, draw, &shapes::FEW_PLACES)
    }
}

// Draws a job and plays a list of calls on it. What was met so far, and here.
fn try_job(alloc: Global, mut counts: Counts, number: u32) -> Result<Counts> {
    let mut draw = Draw::of(number);
    let job = drawn(alloc, &mut draw, number)?;
    counts.jobs.add(&job);
    plays::play(alloc, &job, draw, counts)
}

// Tries the jobs of these numbers, and prints what was met.
fn try_jobs(rt: &HostRuntime, first: u32, last: u32) -> Result<()> {
    let mut counts = Counts::default();
    for number in first..=last {
        let tried = try_job(rt.alloc(), counts, number);
        counts = tried.context(format_args!("job {number}"))?;
    }
    counts.print(rt)?;
    Ok(())
}

fn run(rt: &HostRuntime) -> Result<()> {
    println!(rt; "FEW PLACES")?;
    try_jobs(rt, 1, FEW)?;
    println!(rt; "MANY PLACES")?;
    try_jobs(rt, FEW + 1, FEW + MANY)
}

fn main(rt: HostRuntime) -> Result<()> {
    run(&rt)
}
