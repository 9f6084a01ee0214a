// What the runs of a search have come to.
use crate::said::{Said, Verdict};
use anyhow::{Result, ensure};
use search::{Ran, Why};

// A run by a record doesn't tell its steps: so they lie between two numbers, and are known where these are the same.
#[derive(Clone, Copy)]
pub(crate) struct Made {
    pub(crate) least: u32,
    pub(crate) most: u32,
    // Why the search stands where it does, where that is known.
    why: Option<Why>,
}

// Why a search with such a verdict stands where it does.
fn why_of(verdict: Verdict) -> Why {
    match verdict {
        Verdict::Least | Verdict::Nothing => Why::HasEnded,
        Verdict::Full => Why::IsFull,
        Verdict::Unfinished => Why::BudgetUsed,
    }
}

// A run makes as many steps as its budget, or fewer where it says why.
fn check_ran(budget: u32, ran: Ran) -> Result<()> {
    let Ran { why, made } = ran;
    ensure!(made <= budget, "{made} steps in a budget of {budget}");
    ensure!(
        made == budget || why != Why::BudgetUsed,
        "a budget of {budget} is used after {made} steps"
    );
    Ok(())
}

impl Made {
    // No run yet.
    pub(crate) fn nothing() -> Made {
        Made {
            least: 0,
            most: 0,
            why: None,
        }
    }

    // Whether the search can make no step more.
    fn is_over(&self) -> bool {
        matches!(self.why, Some(Why::HasEnded | Why::IsFull))
    }

    // After a run that told what it came to.
    pub(crate) fn after(self, budget: u32, ran: Ran) -> Result<Made> {
        check_ran(budget, ran)?;
        ensure!(
            !self.is_over() || (ran.made == 0 && self.why == Some(ran.why)),
            "a search that was over goes on: {ran:?}"
        );
        Ok(Made {
            least: self.least.saturating_add(ran.made),
            most: self.most.saturating_add(ran.made),
            why: Some(ran.why),
        })
    }

    // After a run that told nothing of that.
    pub(crate) fn after_record(self, budget: u32) -> Made {
        if self.is_over() || budget == 0 {
            return self;
        }
        Made {
            most: self.most.saturating_add(budget),
            why: None,
            ..self
        }
    }

    // Holds a verdict against the runs before it: a search is unfinished only if it has used each budget.
    pub(crate) fn check(&self, said: &Said) -> Result<()> {
        let Made { least, most, why } = *self;
        let steps = said.steps;
        ensure!(
            least <= steps && steps <= most,
            "{steps} steps, not from {least} to {most}"
        );
        ensure!(
            steps == most || said.verdict != Verdict::Unfinished,
            "unfinished after {steps} steps of {most}"
        );
        if let Some(why) = why {
            let told = why_of(said.verdict);
            ensure!(
                told == why,
                "the last run told {why:?}, and the close {told:?}"
            );
        }
        Ok(())
    }
}
