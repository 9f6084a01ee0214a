// What a closed search says, by place.
use arrayvec::ArrayVec;
use rules::{ClosingLine, MOST_PLACES, MOST_ROWS};

// A version for each place, and what they cost together.
#[derive(Drop)]
pub struct Choice {
    pub price: i64,
    pub versions: ArrayVec<u8, MOST_PLACES>,
}

// The lines of a closing ground.
#[derive(Drop)]
pub struct ClosingGround {
    pub lines: ArrayVec<ClosingLine, MOST_ROWS>,
}

// What is said of a search.
#[derive(Drop)]
pub enum Told {
    // The least choice, with the closing ground.
    Least(Choice, ClosingGround),
    // No choice keeps the limits: the closing ground.
    Nothing(ClosingGround),
    // The ledger lacks space for the next ground: the best choice so far.
    Full(Option<Choice>),
    // The search was closed before its end: the best choice so far.
    Unfinished(Option<Choice>),
}

// The verdict of a close: what is said, the steps of the search, and how many learned grounds the job holds.
#[derive(Drop)]
pub struct Seen {
    pub says: Told,
    pub steps: u32,
    pub held: usize,
}

mod places;
mod tells;

pub(crate) use tells::seen;
