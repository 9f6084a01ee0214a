// What a search has found.
ghost use Rattle.std.specs.Prelude.{◌≡◌, true};
ghost use Rattle.search.specs.Findings.{finding_of, verdict_of, cut_finding, cut_verdict, told, learned_shaped};

use crate::closing::Closing;
use crate::found::{Finding, Verdict};
use crate::next::Next;
use crate::search::Search;
use ledger::Draft;

impl Search {
    // What the search has found.
    fn finding(&self) -> Finding
        ensures { finding_of self.now result ≡ cut_finding (told self.now).finding }
    {
        let mut draft = Draft::empty();
        match self.next(&mut draft) {
            Next::Ended(ground) => {
                let closing = Closing::of(self.ground(ground).lines());
                match self.best {
                    Some(choice) => Finding::Least(choice, closing),
                    None => Finding::Nothing(closing),
                }
            }
            Next::Full => Finding::Filled(self.best),
            Next::Makes(_) => Finding::Unfinished(self.best),
        }
    }

    // What the search has come to; of a closing ground that cannot have been learned here, no more lines than there can be rows.
    pub fn verdict(&self) -> Verdict
        ensures cut { verdict_of self.now result ≡ cut_verdict (told self.now) }
        ensures whole { learned_shaped self.now ≡ true → verdict_of self.now result ≡ told self.now }
    {
        Verdict {
            finding: self.finding(),
            steps: self.steps,
            held: self.ledger.count(),
        }
    }
}
