// Every choice tried, place by place.
ghost use Rattle.std.specs.Prelude.{◌≡◌, ◌≤◌};
ghost use Rattle.exhaustive.specs.Answers.{RightAnswer};
ghost use Rattle.exhaustive.specs.Trials.{guarded, cheaper as cheaper_of, tried, answer};

use crate::found::Found;
use crate::trial::Trial;
use catalogue::Catalogue;
use rules::{Refusal, Sheet};
use std::cmp;

// Of two that were found the cheaper, and the first where they cost the same.
fn cheaper(first: Option<Found>, second: Option<Found>) -> Option<Found>
    ensures { result ≡ cheaper_of first second }
{
    match (first, second) {
        (Some(first), Some(second)) => Some(cmp::min_by_key(first, second, |found| found.price)),
        (first, second) => first.or(second),
    }
}

impl<C: Catalogue> Trial<'_, C> {
    // The cheapest choice with these versions, of which so many, the last ones, are still to be tried.
    fn try_last(&self, left: u8) -> Option<Found>
        requires { left ≤ self.now.sheet.now.places }
        ensures { result ≡ tried (guarded (C.Catalogue.meaning self.now.catalogue.now)) self.now.sheet.now left self.now.versions }
    {
        if left == 0 {
            return self.judge();
        }
        let place = self.sheet.places - left + 1;
        let mut best = None;
        for version in 1..=self.versions_in(place) {
            best = cheaper(best, self.with(place, version).try_last(left - 1));
        }
        best
    }
}

// The cheapest choice of a catalogue that keeps the limits of a sheet, or none where no choice does; of several that
// cost the same, the one that has the lower version at the first place where they differ.
#[tactic(auto, using(crate::proofs::RightAnswers::right_where))]
pub fn cheapest<C: Catalogue>(sheet: &Sheet, catalogue: &C) -> Result<Option<Found>, Refusal>
    ensures is { result ≡ answer (C.Catalogue.meaning catalogue.now) sheet.now }
    ensures right { RightAnswer (C.Catalogue.meaning catalogue.now) sheet.now result }
{
    let blank = Trial::blank(sheet, catalogue)?;
    blank.known_kinds()?;
    Ok(blank.try_last(sheet.places))
}
