// How often each verdict was met, and what came with it.
use crate::counts::{KINDS, more, one_at, one_if, print_table};
use crate::jobs::Drawn;
use crate::said::{Ground, Said, Verdict};
use rules::MOST_GROUNDS;
use std::io;

// What closed searches said.
#[derive(Clone, Copy, Default)]
pub(crate) struct VerdictCounts {
    least: u32,
    none: u32,
    full: u32,
    unfinished: u32,
    // Those of the last two that have a best choice, and full ledgers with as many grounds as there may be.
    full_with_best: u32,
    full_of_grounds: u32,
    unfinished_with_best: u32,
    // Searches that began with learned grounds.
    with_grounds: u32,
    // Of the search that made the most, and of all together.
    most_steps: u32,
    steps: u32,
    held: u32,
    // Choices that were drawn at a close and keep the limits.
    kept: u32,
}

// What closing grounds were met, with their lines by kind, and lists of limits that were tried on one.
#[derive(Clone, Copy, Default)]
pub(crate) struct GroundCounts {
    grounds: u32,
    lines: [u32; KINDS],
    lists: u32,
}

impl VerdictCounts {
    // What is said of a search that began with so many learned grounds, so many drawn choices keeping its limits.
    pub(crate) fn add(&mut self, said: &Said, began: usize, kept: u32) {
        let with_best = said.best.is_some();
        match said.verdict {
            Verdict::Least => more(&mut self.least, 1),
            Verdict::Nothing => more(&mut self.none, 1),
            Verdict::Full => {
                more(&mut self.full, 1);
                one_if(&mut self.full_with_best, with_best);
                one_if(&mut self.full_of_grounds, said.held == MOST_GROUNDS);
            }
            Verdict::Unfinished => {
                more(&mut self.unfinished, 1);
                one_if(&mut self.unfinished_with_best, with_best);
            }
        }
        one_if(&mut self.with_grounds, began > 0);
        self.most_steps = self.most_steps.max(said.steps);
        more(&mut self.steps, said.steps);
        more(&mut self.held, u32::try_from(said.held).unwrap_or(u32::MAX));
        more(&mut self.kept, kept);
    }

    pub(crate) fn print(&self, rt: &impl Print) -> io::Result<()> {
        println!(rt; "LEAST {}", self.least)?;
        println!(rt; "NONE {}", self.none)?;
        println!(rt;
            "FULL {} WITH BEST {} WITH {MOST_GROUNDS} GROUNDS {}",
            self.full, self.full_with_best, self.full_of_grounds
        )?;
        println!(rt;
            "UNFINISHED {} WITH BEST {}",
            self.unfinished, self.unfinished_with_best
        )?;
        println!(rt; "BEGUN WITH GROUNDS {}", self.with_grounds)?;
        println!(rt; "STEPS OF A SEARCH AT MOST {}", self.most_steps)?;
        println!(rt; "STEPS {} GROUNDS HELD {}", self.steps, self.held)?;
        println!(rt; "DRAWN CHOICES THAT KEEP THE LIMITS {}", self.kept)
    }
}

impl GroundCounts {
    // A closing ground with the number of lists of limits that were tried on it.
    pub(crate) fn add(&mut self, job: &Drawn, ground: &Ground, lists: u32) {
        more(&mut self.grounds, 1);
        more(&mut self.lists, lists);
        for line in ground.lines() {
            one_at(&mut self.lines, usize::from(job.kind(line.row).number()));
        }
    }

    pub(crate) fn print(&self, rt: &impl Print) -> io::Result<()> {
        println!(rt; "GROUNDS {}", self.grounds)?;
        print_table(rt, "LINES OF KIND", &self.lines)?;
        println!(rt; "LISTS {}", self.lists)
    }
}
