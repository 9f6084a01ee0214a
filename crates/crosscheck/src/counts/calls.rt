// How often each call was made, and how it was answered.
use crate::calls::Call;
use crate::counts::{more, one_at, one_if, print_table};
use crate::jobs::Drawn;
use crate::limits::breaks;
use crate::models::Model;
use rules::Kind;
use std::io;

// Answers are below this: 0 for a call that is taken, and the numbers of refusals.
const ANSWERS: usize = 18;

// What calls go by, by their code; 0 is that of a record which asks for none.
const NAMES: [&str; 6] = [
    "NO CALL ANSWERED",
    "LIMIT CHANGE ANSWERED",
    "CLEAR ANSWERED",
    "SEARCH ANSWERED",
    "RUN ANSWERED",
    "CLOSE ANSWERED",
];

// What calls were made.
#[derive(Clone, Copy, Default)]
pub(crate) struct CallCounts {
    calls: u32,
    answers: [[u32; ANSWERS]; NAMES.len()],
    // Limit changes that were taken, by the way that they moved the limit.
    looser: u32,
    tighter: u32,
    same: u32,
    // Those of the cap, by where they put it from the least price that was found last.
    below: u32,
    at: u32,
    above: u32,
    // Runs that were taken, by their budget.
    of_nothing: u32,
    small: u32,
    great: u32,
}

impl CallCounts {
    // A limit change that is taken.
    fn change(&mut self, kind: Kind, old: i64, new: i64) {
        let tighter = breaks(kind, old, new);
        let looser = breaks(kind, new, old);
        one_if(&mut self.tighter, tighter);
        one_if(&mut self.looser, looser);
        one_if(&mut self.same, !tighter && !looser);
    }

    // A cap that is taken, where the least price that was found last is known.
    fn change_cap(&mut self, least: i64, cap: i64) {
        one_if(&mut self.below, cap == least.saturating_sub(1));
        one_if(&mut self.at, cap == least);
        one_if(&mut self.above, cap == least.saturating_add(1));
    }

    // A run that is taken.
    fn run(&mut self, budget: i32) {
        match budget {
            0 => more(&mut self.of_nothing, 1),
            1..=100 => more(&mut self.small, 1),
            _ => more(&mut self.great, 1),
        }
    }

    fn taken(&mut self, job: &Drawn, model: &Model, call: Call) {
        match call {
            Call::Change(row, limit) => {
                let limit = i64::from(limit);
                self.change(job.kind(row), model.limits.at(row), limit);
                if let (0, Some(least)) = (row, model.least) {
                    self.change_cap(least, limit);
                }
            }
            Call::Run(budget) => self.run(budget),
            _ => {}
        }
    }

    // A call on a job with its answer.
    pub(crate) fn add(&mut self, job: &Drawn, model: &Model, call: Call, answer: u8) {
        more(&mut self.calls, 1);
        if let Some(answers) = self.answers.get_mut(call.code()) {
            one_at(answers, usize::from(answer));
        }
        if answer == 0 {
            self.taken(job, model, call);
        }
    }

    fn print_answers(&self, rt: &impl Print) -> io::Result<()> {
        for (name, answers) in NAMES.iter().zip(&self.answers) {
            print_table(rt, name, answers)?;
        }
        Ok(())
    }

    pub(crate) fn print(&self, rt: &impl Print) -> io::Result<()> {
        println!(rt; "CALLS {}", self.calls)?;
        self.print_answers(rt)?;
        println!(rt;
            "LIMITS LOOSER {} TIGHTER {} SAME {}",
            self.looser, self.tighter, self.same
        )?;
        println!(rt;
            "CAPS ONE BELOW THE LEAST {} AT IT {} ONE ABOVE {}",
            self.below, self.at, self.above
        )?;
        println!(rt;
            "BUDGETS OF 0: {} TO 100: {} ABOVE: {}",
            self.of_nothing, self.small, self.great
        )
    }
}
