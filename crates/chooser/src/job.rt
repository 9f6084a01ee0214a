// A job, closed or with a search running.
ghost use Rattle.std.specs.Prelude.{◌≡◌, List};
ghost use Rattle.rules.specs.Histories.{Entry};
ghost use Rattle.rules.specs.Settings.{setting};
ghost use Rattle.rules.specs.KeptJobs.{CameBy};
ghost use Rattle.chooser.specs.Models.{setting_in, kept};

use crate::opened::Opened;
use catalogue::Catalogue;
use rules::{Fault, Sheet};

// Its sheet and catalogue, what it has come to or the fault of its opening, and whether a search is running. Calls that come as
// records are taken in its place, whatever its state.
#[derive(Drop)]
pub struct Job<C: Catalogue> {
    pub(crate) sheet: Sheet,
    pub(crate) catalogue: C,
    pub(crate) opened: Result<Opened, Fault>,
    pub(crate) running: bool,
    ghost seen: { setting_in (setting (C.meaning catalogue) sheet) opened ≡ setting (C.meaning catalogue) sheet },
    ghost came: { ∥ ((es : List Entry) × CameBy (C.meaning catalogue) sheet es (kept running opened)) ∥₁ },
}

mod makes;
mod opens;
mod questions;
mod states;
mod takes;

pub use states::State;
