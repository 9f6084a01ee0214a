// What a search answers.
use crate::closing::Closing;
use crate::part::Part;

// Why a run stopped.
#[derive(Clone, Copy, Debug, PartialEq, Eq)]
pub enum Why {
    HasEnded,
    IsFull,
    BudgetUsed,
}

// What a run came to: why it stopped, and the steps that it made.
#[derive(Clone, Copy, Debug, PartialEq, Eq)]
pub struct Ran {
    pub why: Why,
    pub made: u32,
}

// What a search has found: the four findings of the rules.
#[derive(Clone, Copy, Debug, PartialEq, Eq)]
pub enum Finding {
    // It has ended: the least choice, and the closing ground.
    Least(Part, Closing),
    // It has ended, and no choice keeps the limits: the closing ground.
    Nothing(Closing),
    // It is full: the best choice so far.
    Filled(Option<Part>),
    // It is unfinished: the best choice so far.
    Unfinished(Option<Part>),
}

// What it has found, the steps made, and how many learned grounds there are.
#[derive(Clone, Copy, Debug, PartialEq, Eq)]
pub struct Verdict {
    pub finding: Finding,
    pub steps: u32,
    pub held: usize,
}
