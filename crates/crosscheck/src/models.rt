// What is expected of a job's answers, kept apart from the job.
use crate::calls::Call;
use crate::limits::Limits;
use crate::made::Made;
use crate::said::{Said, Verdict};
use anyhow::{Context, Result, ensure};
use rules::{Fault, GREATEST_LIMIT, MOST_GROUNDS, MOST_LINES, MOST_STEPS, Sheet};
use search::Ran;

// The numbers of the refusals that calls meet.
const NO_CALL: u8 = 5;

const LIMIT_BEYOND: u8 = 8;

const NOT_IN_THIS_STATE: u8 = 14;

pub(crate) const NO_SUCH_ROW: u8 = 15;

const BUDGET_BEYOND: u8 = 16;

// The layers that test a limit, and a call on a job.
const SHEET_LAYER: u8 = 2;

const JOB_LAYER: u8 = 4;

// What a refusal tells that says nothing of where it was met.
pub(crate) fn plain_fault(number: u8) -> Fault {
    let layer = if number == LIMIT_BEYOND {
        SHEET_LAYER
    } else {
        JOB_LAYER
    };
    Fault {
        layer,
        number,
        ..Fault::default()
    }
}

// The limits in force, the running search, and the last verdict, none while the job is unsearched.
#[derive(Clone, Copy)]
pub(crate) struct Model {
    places: u8,
    pub(crate) last_row: u8,
    pub(crate) limits: Limits,
    pub(crate) running: Option<Made>,
    pub(crate) said: Option<Said>,
    // The learned grounds that were held when no search was running.
    pub(crate) held: usize,
    // The least price that was last found.
    pub(crate) least: Option<i64>,
}

impl Model {
    // A job as it is opened.
    pub(crate) fn of(sheet: &Sheet) -> Model {
        Model {
            places: sheet.places,
            last_row: sheet.last_row,
            limits: Limits::of(sheet),
            running: None,
            said: None,
            held: 0,
            least: None,
        }
    }

    // The answer that a call is given: 0, or the number of its refusal.
    pub(crate) fn answer(&self, call: Call) -> u8 {
        match (call, &self.running) {
            (Call::Nothing(_), _) => NO_CALL,
            (Call::Change(row, limit), None) => self.answer_change(row, limit),
            (Call::Clear | Call::Search, None) | (Call::Close, Some(_)) => 0,
            (Call::Run(budget), Some(made)) => match u32::try_from(budget) {
                Ok(budget) if made.least.saturating_add(budget) <= MOST_STEPS => 0,
                _ => BUDGET_BEYOND,
            },
            _ => NOT_IN_THIS_STATE,
        }
    }

    // The answer to a limit change on a closed job.
    fn answer_change(&self, row: u8, limit: i32) -> u8 {
        if row > self.last_row {
            NO_SUCH_ROW
        } else if limit.unsigned_abs() > GREATEST_LIMIT {
            LIMIT_BEYOND
        } else {
            0
        }
    }

    // After a call that was taken, other than a close.
    pub(crate) fn take(&mut self, call: Call, ran: Option<Ran>) -> Result<()> {
        match call {
            Call::Change(row, limit) => {
                self.limits = self.limits.with(row, i64::from(limit));
                self.said = None;
            }
            Call::Clear => {
                self.held = 0;
                self.said = None;
            }
            Call::Search => self.running = Some(Made::nothing()),
            Call::Run(budget) => self.ran(u32::try_from(budget)?, ran)?,
            Call::Close | Call::Nothing(_) => {}
        }
        Ok(())
    }

    // After a run that was taken.
    fn ran(&mut self, budget: u32, ran: Option<Ran>) -> Result<()> {
        let made = self.running.context("a run on a closed job")?;
        self.running = Some(match ran {
            Some(ran) => made.after(budget, ran)?,
            None => made.after_record(budget),
        });
        Ok(())
    }

    // A place is opened only as a ground is learned, and a search that has ended has opened all. A choice takes a step more.
    fn check_end(&self, learned: usize, said: &Said) -> Result<()> {
        let places = usize::from(self.places);
        let least = places.saturating_add(usize::from(said.best.is_some()));
        ensure!(
            places <= learned && least <= said.steps as usize,
            "an end of {places} places after {} steps with {learned} grounds learned",
            said.steps
        );
        Ok(())
    }

    // A ledger that lacks space for a ground has as many as there may be, or would have too many lines with one more, which has a line for
    // each row and position at most.
    fn check_full(&self, held: usize) -> Result<()> {
        let rows = usize::from(self.last_row).saturating_add(1);
        let lines = rows.saturating_mul(usize::from(self.places));
        let more = held.saturating_add(1);
        ensure!(
            held == MOST_GROUNDS || more.saturating_mul(lines) > MOST_LINES,
            "the ledger is full with {held} grounds"
        );
        Ok(())
    }

    // The learned grounds that a verdict tells are those held before and some more, each learned by a step.
    fn check_held(&self, said: &Said) -> Result<()> {
        let learned = said
            .held
            .checked_sub(self.held)
            .context("grounds are lost")?;
        ensure!(
            said.held <= MOST_GROUNDS && learned <= said.steps as usize,
            "{} grounds after {} and {} steps",
            said.held,
            self.held,
            said.steps
        );
        match said.verdict {
            Verdict::Least | Verdict::Nothing => self.check_end(learned, said),
            Verdict::Full => self.check_full(said.held),
            Verdict::Unfinished => Ok(()),
        }
    }

    // After a close: the verdict fits the runs before it, and the learned grounds that were held.
    pub(crate) fn close(&mut self, said: &Said) -> Result<()> {
        let made = self.running.context("a close of a closed job")?;
        made.check(said)?;
        self.check_held(said)?;
        self.running = None;
        self.said = Some(*said);
        self.held = said.held;
        Ok(())
    }
}
