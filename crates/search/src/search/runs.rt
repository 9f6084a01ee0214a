// How a search runs.
ghost use Rattle.std.specs.Prelude.{◌≡◌, ◌+◌, ◌<◌, ◌≤◌, true, [], ◌∷◌, ◌++◌, pos};
ghost use Rattle.rules.specs.Bounds.{most_steps};
ghost use Rattle.rules.specs.Search.{room};
ghost use Rattle.rules.specs.Calls.{run as run_call, run_from, reply};
ghost use Rattle.ledger.specs.Drafted.{drafted};
ghost use Rattle.ledger.specs.Model.{held};
ghost use Rattle.search.specs.States.{chosen_from, job_limits, state_of, SameJob};
ghost use Rattle.search.specs.Findings.{learned_shaped};
ghost use Rattle.search.specs.Nexts.{after, ReadyStep};
ghost use Rattle.search.specs.Runs.{ran_of, running_of, run_answer};

use crate::found::{Ran, Why};
use crate::next::{Next, Step};
use crate::search::Search;
use ledger::{Draft, Ledger};
use rules::{MOST_STEPS, Refusal};

// Adds a ground to a ledger that has space for it.
fn add_ground(ledger: &mut Ledger, draft: &Draft)
    requires { room (held ledger.old) (drafted draft.now) ≡ true }
    ensures { held ledger.new ≡ held ledger.old ++ (drafted draft.now ∷ []) }
{
    let Ok(()) = ledger.push(draft.lines()) else {
        unreachable()
    };
}

impl Search {
    // Makes a step.
    fn make(&mut self, step: Step, draft: &Draft)
        requires ready { ReadyStep self.old draft.now step }
        requires few { self.old.steps < most_steps }
        ensures state { state_of self.new ≡ after self.old draft.now step }
        ensures count { self.new.steps ≡ self.old.steps + 1 }
        ensures kept { SameJob self.new self.old }
    {
        match step {
            Step::Set(pick) => {
                self.set(pick);
            }
            Step::Learn(index) => {
                add_ground(&mut self.ledger, draft);
                self.part = self.part.open_to(index + 1);
            }
            Step::Best(price) => {
                self.best = Some(self.part);
                self.cap = price - 1;
            }
        }
        self.steps += 1;
    }

    // Makes steps until the search has ended, is full, or the budget is used.
    // Not `for`: what comes next is looked at once more after the last step, so the match would stand twice.
    fn run_on(&mut self, budget: u32) -> Ran
        requires { self.old.steps + budget ≤ most_steps }
        ensures ran { ran_of result (state_of self.new) ≡ run_from (chosen_from self.old) (job_limits self.old) budget (state_of self.old) }
        ensures kept { SameJob self.new self.old }
    {
        let mut draft = Draft::empty();
        let mut made = 0;
        loop {
            let why = match self.next(&mut draft) {
                Next::Ended(_) => Why::HasEnded,
                Next::Full => Why::IsFull,
                Next::Makes(_) if made == budget => Why::BudgetUsed,
                Next::Makes(step) => {
                    self.make(step, &draft);
                    made += 1;
                    continue;
                }
            };
            return Ran { why, made };
        }
    }

    // Runs with a budget; it is refused, and nothing altered, where the steps would be more than there may be.
    pub fn run(&mut self, budget: u32) -> Result<Ran, Refusal>
        ensures answer { run_answer result ≡ (reply (chosen_from self.old) (running_of self.old) (run_call (pos budget))).answer }
        ensures job { running_of self.new ≡ (reply (chosen_from self.old) (running_of self.old) (run_call (pos budget))).job }
        ensures kept { SameJob self.new self.old }
        ensures shaped { learned_shaped self.old ≡ true → learned_shaped self.new ≡ true }
    {
        if self.steps.saturating_add(budget) > MOST_STEPS {
            return Err(Refusal::BudgetBeyond);
        }
        Ok(self.run_on(budget))
    }
}
