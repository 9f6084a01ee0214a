// The calls on a job without fault.
ghost use Rattle.std.specs.Prelude.{◌≡◌, [], None};
ghost use Rattle.rules.specs.Calls.{reply, change, clear, begin_search, closed, run as run_call, close as close_call};
ghost use Rattle.search.specs.Runs.{run_answer};
ghost use Rattle.search.specs.States.{limits_of, chosen_from};
ghost use Rattle.chooser.specs.Models.{closed_of, searched_of, job_of, taken_or, made_answer};
ghost use Rattle.chooser.specs.Requests.{call_of, turned};

use crate::opened::{Made, Opened};
use crate::requests::Call;
use rules::{GREATEST_LIMIT, MOST_ROWS, Refusal};
use search::{Grid, Ran, Search};

impl Opened {
    // A job as it is opened.
    pub(crate) fn new(grid: Grid, limits: [i64; MOST_ROWS]) -> Opened
        ensures job { closed_of result ≡ closed (limits_of limits) [] None }
        ensures grid { result.search.grid ≡ grid }
    {
        Opened {
            search: Search::new(grid, limits),
            verdict: None,
        }
    }

    // Replaces the limit of a row.
    fn change_limit(&mut self, row: u8, limit: i32) -> Result<(), Refusal>
        ensures answer { taken_or result ≡ (reply (chosen_from self.old.search) (closed_of self.old) (change row limit)).answer }
        ensures job { closed_of self.new ≡ (reply (chosen_from self.old.search) (closed_of self.old) (change row limit)).job }
        ensures grid { self.new.search.grid ≡ self.old.search.grid }
    {
        if usize::from(row) > self.search.last_row() {
            return Err(Refusal::NoSuchRow);
        }
        if limit.unsigned_abs() > GREATEST_LIMIT {
            return Err(Refusal::LimitBeyond);
        }
        self.search.set_limit(row, i64::from(limit));
        self.verdict = None;
        Ok(())
    }

    // Drops all learned grounds.
    #[tactic(auto, unfolding(rules::specs::Calls::reply))]
    fn clear(&mut self)
        ensures job { closed_of self.new ≡ (reply (chosen_from self.old.search) (closed_of self.old) clear).job }
        ensures grid { self.new.search.grid ≡ self.old.search.grid }
    {
        self.search.clear();
        self.verdict = None;
    }

    // Begins a search.
    fn search(&mut self)
        ensures job { searched_of self.new ≡ (reply (chosen_from self.old.search) (closed_of self.old) begin_search).job }
        ensures grid { chosen_from self.new.search ≡ chosen_from self.old.search }
    {
        self.search.begin();
    }

    // Makes steps within a budget.
    fn run(&mut self, budget: i32) -> Result<Ran, Refusal>
        ensures answer { run_answer result ≡ (reply (chosen_from self.old.search) (searched_of self.old) (run_call budget)).answer }
        ensures job { searched_of self.new ≡ (reply (chosen_from self.old.search) (searched_of self.old) (run_call budget)).job }
        ensures grid { chosen_from self.new.search ≡ chosen_from self.old.search }
    {
        let Ok(budget) = u32::try_from(budget) else {
            return Err(Refusal::BudgetBeyond);
        };
        self.search.run(budget)
    }

    // Ends the search with a verdict on it.
    fn close(&mut self)
        ensures job { closed_of self.new ≡ (reply (chosen_from self.old.search) (searched_of self.old) close_call).job }
        ensures grid { chosen_from self.new.search ≡ chosen_from self.old.search }
    {
        self.verdict = Some(self.search.verdict());
    }

    // Makes a call, if the state allows it: a search is running, or the job is closed.
    #[tactic(auto, unfolding(rules::specs::Calls::reply))]
    pub(crate) fn make(&mut self, running: bool, call: Call) -> Result<Made, Refusal>
        ensures answer { made_answer result ≡ (reply (chosen_from self.old.search) (job_of running self.old) (call_of call)).answer }
        ensures job { job_of (turned running (call_of call)) self.new ≡ (reply (chosen_from self.old.search) (job_of running self.old) (call_of call)).job }
        ensures grid { chosen_from self.new.search ≡ chosen_from self.old.search }
    {
        match (call, running) {
            (Call::Change(row, limit), false) => {
                self.change_limit(row, limit)?;
                Ok(Made::Done)
            }
            (Call::Clear, false) => {
                self.clear();
                Ok(Made::Done)
            }
            (Call::Search, false) => {
                self.search();
                Ok(Made::Done)
            }
            (Call::Run(budget), true) => Ok(Made::Ran(self.run(budget)?)),
            (Call::Close, true) => {
                self.close();
                Ok(Made::Done)
            }
            _ => Err(Refusal::NotInThisState),
        }
    }
}
