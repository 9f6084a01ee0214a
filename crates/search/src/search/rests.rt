// A search at rest: what is chosen from, the limits of the job, and the learned grounds. All of it stays in its place when a search begins.
ghost use Rattle.std.specs.Prelude.{◌≡◌, ◌≤◌, [], pos, slice_set};
ghost use Rattle.rules.specs.Bounds.{greatest_row};
ghost use Rattle.rules.specs.Search.{start as started};
ghost use Rattle.ledger.specs.Model.{held};
ghost use Rattle.search.specs.States.{chosen_from, job_limits, state_of, AtRest, SameJob, SameCourse};

use crate::grid::Grid;
use crate::part::Part;
use crate::pick::Pick;
use crate::search::Search;
use crate::search::stack::units_in;
use crate::sums::LEVELS;
use ledger::Ledger;
use rules::MOST_ROWS;

impl Search {
    // A search that hasn't begun, with no learned ground.
    pub fn new(grid: Grid, limits: [i64; MOST_ROWS]) -> Search
        ensures grid { result.grid ≡ grid }
        ensures limits { result.limits ≡ limits }
        ensures ledger { held result.ledger ≡ [] }
        ensures rest { AtRest result × (result.cap ≡ pos 0) }
    {
        let opened = grid.places();
        let units = units_in(&grid);
        Search {
            grid,
            limits,
            ledger: Ledger::empty(),
            part: Part::first(opened),
            sums: [units; LEVELS],
            best: None,
            cap: 0,
            steps: 0,
        }
    }

    // The number of the last row.
    pub fn last_row(&self) -> usize
        ensures is { result ≡ self.now.grid.last_row }
        ensures most { result ≤ greatest_row }
    {
        self.grid.last_row()
    }

    // The limit of the job on a row, and 0 past the rows that there may be.
    pub fn limit(&self, row: u8) -> i64
        ensures { result ≡ job_limits self.now row }
    {
        self.limits.get(usize::from(row)).copied().unwrap_or(0)
    }

    // Replaces the limit of the job on a row; nothing is altered past the rows that there may be.
    pub fn set_limit(&mut self, row: u8, limit: i64)
        ensures limits { self.new.limits ≡ slice_set self.old.limits row limit }
        ensures grid { self.new.grid ≡ self.old.grid }
        ensures ledger { self.new.ledger ≡ self.old.ledger }
        ensures course { SameCourse self.new self.old }
    {
        let row = usize::from(row);
        if row < MOST_ROWS {
            self.limits[row] = limit;
        }
    }

    // Drops all learned grounds.
    pub fn clear(&mut self)
        ensures ledger { held self.new.ledger ≡ [] }
        ensures kept { SameJob self.new self.old }
        ensures course { SameCourse self.new self.old }
    {
        self.ledger.clear();
    }

    // Opens all places, and forgets what an earlier search found.
    fn open_all(&mut self)
        ensures rest { AtRest self.new }
        ensures cap { self.new.cap ≡ job_limits self.new 0 }
        ensures kept { SameJob self.new self.old }
        ensures ledger { self.new.ledger ≡ self.old.ledger }
    {
        let places = self.grid.places();
        self.sums[places] = units_in(&self.grid);
        self.part = Part::first(places);
        self.best = None;
        self.cap = self.limits[0];
        self.steps = 0;
    }

    // Begins a search, with the grounds learned so far.
    pub fn begin(&mut self)
        ensures state { state_of self.new ≡ started (chosen_from self.old) (job_limits self.old) (held self.old.ledger) }
        ensures kept { SameJob self.new self.old }
    {
        self.open_all();
        for index in (0..self.grid.places()).rev() {
            self.set(Pick { index, version: 1 });
        }
    }
}
