// What the bodies of fields say.
ghost use Rattle.std.specs.Prelude.{◌≡◌, ℕ, suc, ◌*◌, ◌≤◌, length, drop, slice_index};
ghost use Rattle.rules.specs.Bounds.{greatest_row};
ghost use Rattle.rules.specs.Openings.{each_to, checked, amount_tests};
ghost use Rattle.jobfile.specs.InMemory.{rungs_of};
ghost use Rattle.jobfile.specs.Contents.{amount_fault, ladder_tests};
ghost use Rattle.jobfile.specs.Reading.{numbers_in, rungs_in};

use crate::checks::{Spot, check_amounts, fault_at};
use catalogue::Rung;
use rules::{Fault, MOST_ROWS, MOST_VERSIONS, Refusal, number_at};
use std::array;

// The rungs in the body of a ladder field, a row each.
fn rungs_in(body: &[u8]) -> [Rung; MOST_ROWS]
    ensures { (m : ℕ) → m ≤ greatest_row → rungs_of (suc m) result ≡ rungs_in (numbers_in (2 * suc m) (drop 2 body.now)) }
{
    array::from_fn(|row| Rung {
        base: number_at(body, 2 + 8 * row),
        step: number_at(body, 6 + 8 * row),
    })
}

// What the body of a ladder field says: a place, how many versions it has, and a rung for each row up to the last.
#[derive(Clone, Copy)]
pub(crate) struct LadderBody {
    last_row: u8,
    pub(crate) place: u8,
    pub(crate) count: u8,
    // Whole: a ladder takes a rung for every row that there may be.
    pub(crate) rungs: [Rung; MOST_ROWS],
    ghost few: { last_row ≤ greatest_row },
}

impl LadderBody {
    ghost use Rattle.jobfile.specs.Bodies.{amount_of};

    // What a body says.
    pub(crate) fn new(last_row: u8, body: &[u8]) -> LadderBody
        requires few { last_row ≤ greatest_row }
        requires long { 2 ≤ length body.now }
        ensures last_row { result.last_row ≡ last_row }
        ensures place { result.place ≡ slice_index body.now 0 }
        ensures count { result.count ≡ slice_index body.now 1 }
        ensures rungs { rungs_of (suc last_row) result.rungs ≡ rungs_in (numbers_in (2 * suc last_row) (drop 2 body.now)) }
    {
        LadderBody {
            last_row,
            place: body[0],
            count: body[1],
            rungs: rungs_in(body),
        }
    }

    // The amount of a row in a version.
    fn amount(&self, row: u8, version: u8) -> i64
        requires { row ≤ self.now.last_row }
        ensures { result ≡ amount_of self.now version row }
    {
        self.rungs[usize::from(row)].at(version)
    }

    // The amounts of a version.
    fn check_version(&self, version: u8, at: u16) -> Result<(), Fault>
        ensures { result ≡ checked (amount_tests (suc self.now.last_row) (amount_of self.now version) (amount_fault at self.now.place version)) }
    {
        let spot = Spot {
            byte: at,
            place: self.place,
            version,
        };
        check_amounts(self.last_row, |row| self.amount(row, version), spot)
    }

    // The amounts of every version.
    fn check_versions(&self, at: u16) -> Result<(), Fault>
        ensures { result ≡ checked (each_to (λ v. amount_tests (suc self.now.last_row) (amount_of self.now v) (amount_fault at self.now.place v)) self.now.count) }
    {
        for version in 1..=self.count {
            self.check_version(version, at)?;
        }
        Ok(())
    }

    // The ladder in a job for so many places, after those that are found so far.
    pub(crate) fn check(&self, places: u8, found: u8, at: u16) -> Result<(), Fault>
        ensures { result ≡ checked (ladder_tests places self.now.last_row found self.now.place self.now.count (amount_of self.now) at) }
    {
        if Some(self.place) != found.checked_add(1) || self.place > places {
            return Err(fault_at(Refusal::PlaceOutOfTurn, at));
        }
        if !(1..=MOST_VERSIONS).contains(&self.count) {
            return Err(fault_at(Refusal::VersionsOutside, at));
        }
        self.check_versions(at)
    }
}
