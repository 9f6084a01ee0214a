// How often each sort of job was drawn.
use crate::counts::{KINDS, more, one_at, one_if, print_table};
use crate::jobs::{Amounts, Drawn};
use rules::{MOST_PLACES, MOST_ROWS, MOST_VERSIONS, Sheet};
use std::io;

// Numbers of places are below this, and numbers of versions.
const PLACES: usize = MOST_PLACES + 1;

const VERSIONS: usize = MOST_VERSIONS as usize + 1;

// What jobs were drawn.
#[derive(Clone, Copy, Default)]
pub(crate) struct JobCounts {
    jobs: u32,
    places: [u32; PLACES],
    last_rows: [u32; MOST_ROWS],
    // Rows from 1 on.
    kinds: [u32; KINDS],
    // Whether the order lists the places by their numbers, or not so.
    in_order: u32,
    shuffled: u32,
    ladder_places: u32,
    listed_places: u32,
    // Jobs with places of both.
    both: u32,
    // Places by the number of their versions.
    versions: [u32; VERSIONS],
    // The choices of the job that has the most.
    most_choices: u64,
    amounts: u32,
    negative: u32,
}

// The number of a length.
fn number(length: usize) -> u32 {
    u32::try_from(length).unwrap_or(u32::MAX)
}

impl JobCounts {
    // The amounts of a version.
    fn add_amounts(&mut self, rows: u8, amounts: &Amounts) {
        for amount in amounts.iter().take(usize::from(rows)) {
            more(&mut self.amounts, 1);
            one_if(&mut self.negative, *amount < 0);
        }
    }

    fn add_place(&mut self, rows: u8, versions: &[Amounts]) {
        one_at(&mut self.versions, versions.len());
        for amounts in versions {
            self.add_amounts(rows, amounts);
        }
    }

    fn add_table(&mut self, job: &Drawn) {
        for versions in &job.table {
            self.add_place(job.rows(), versions);
        }
    }

    fn add_order(&mut self, sheet: &Sheet) {
        let mut listed = (1..=sheet.places).zip(&sheet.order);
        if listed.all(|(place, at)| place == *at) {
            more(&mut self.in_order, 1);
        } else {
            more(&mut self.shuffled, 1);
        }
    }

    fn add_kinds(&mut self, job: &Drawn) {
        for row in 1..=job.sheet.last_row {
            one_at(&mut self.kinds, usize::from(job.kind(row).number()));
        }
    }

    pub(crate) fn add(&mut self, job: &Drawn) {
        let listed = number(job.listed.len());
        let ladder = u32::from(job.sheet.places).saturating_sub(listed);
        let choices = job.choices().unwrap_or(u64::MAX);
        more(&mut self.jobs, 1);
        self.most_choices = self.most_choices.max(choices);
        one_at(&mut self.places, usize::from(job.sheet.places));
        one_at(&mut self.last_rows, usize::from(job.sheet.last_row));
        more(&mut self.listed_places, listed);
        more(&mut self.ladder_places, ladder);
        one_if(&mut self.both, listed > 0 && ladder > 0);
        self.add_order(&job.sheet);
        self.add_kinds(job);
        self.add_table(job);
    }

    pub(crate) fn print(&self, rt: &impl Print) -> io::Result<()> {
        println!(rt; "JOBS {}", self.jobs)?;
        print_table(rt, "JOBS WITH PLACES", &self.places)?;
        print_table(rt, "JOBS WITH LAST ROW", &self.last_rows)?;
        print_table(rt, "ROWS OF KIND", &self.kinds)?;
        println!(rt;
            "ORDERS BY NUMBER {} SHUFFLED {}",
            self.in_order, self.shuffled
        )?;
        println!(rt;
            "LADDER PLACES {} LISTED PLACES {} JOBS WITH BOTH {}",
            self.ladder_places, self.listed_places, self.both
        )?;
        print_table(rt, "PLACES WITH VERSIONS", &self.versions)?;
        println!(rt; "CHOICES OF A JOB AT MOST {}", self.most_choices)?;
        println!(rt; "AMOUNTS {} NEGATIVE {}", self.amounts, self.negative)
    }
}
