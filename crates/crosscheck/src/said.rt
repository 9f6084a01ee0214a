// What is said of a closed search, as plain data: so that it can be kept, and held against what is said later.
use crate::limits::Limits;
use chooser::{Choice, ClosingGround, Seen, Told};
use rules::{ClosingLine, MOST_PLACES, MOST_ROWS};
use std::array;

#[derive(Clone, Copy, Debug, PartialEq, Eq)]
pub(crate) enum Verdict {
    Least,
    Nothing,
    Full,
    Unfinished,
}

// A best choice: its price, and the version of so many places. Past them is 0.
#[derive(Clone, Copy, Debug, PartialEq, Eq)]
pub(crate) struct Best {
    pub(crate) price: i64,
    pub(crate) places: usize,
    pub(crate) versions: [u8; MOST_PLACES],
}

// A closing ground of so many lines. Past them are blank ones.
#[derive(Clone, Copy, Debug, PartialEq, Eq)]
pub(crate) struct Ground {
    pub(crate) count: usize,
    pub(crate) lines: [ClosingLine; MOST_ROWS],
}

// A verdict with all that it carries.
#[derive(Clone, Copy, Debug, PartialEq, Eq)]
pub(crate) struct Said {
    pub(crate) verdict: Verdict,
    pub(crate) best: Option<Best>,
    pub(crate) ground: Option<Ground>,
    pub(crate) steps: u32,
    // How many learned grounds the job holds.
    pub(crate) held: usize,
}

impl Best {
    fn of(choice: &Choice) -> Best {
        let versions = choice.versions.as_slice();
        Best {
            price: choice.price,
            places: versions.len(),
            versions: array::from_fn(|index| versions.get(index).copied().unwrap_or(0)),
        }
    }
}

impl Ground {
    fn of(ground: &ClosingGround) -> Ground {
        let lines = ground.lines.as_slice();
        Ground {
            count: lines.len(),
            lines: array::from_fn(|index| lines.get(index).copied().unwrap_or_default()),
        }
    }
}

impl Said {
    pub(crate) fn of(seen: &Seen) -> Said {
        let (verdict, best, ground) = match &seen.says {
            Told::Least(choice, ground) => (Verdict::Least, Some(choice), Some(ground)),
            Told::Nothing(ground) => (Verdict::Nothing, None, Some(ground)),
            Told::Full(best) => (Verdict::Full, best.as_ref(), None),
            Told::Unfinished(best) => (Verdict::Unfinished, best.as_ref(), None),
        };
        Said {
            verdict,
            best: best.map(Best::of),
            ground: ground.map(Ground::of),
            steps: seen.steps,
            held: seen.held,
        }
    }

    // The limits at which the closing ground is to stand: those in force, and with a best choice a cap one below its price.
    pub(crate) fn limits_closed(&self, limits: &Limits) -> Limits {
        match &self.best {
            Some(best) => limits.with(0, best.price.saturating_sub(1)),
            None => *limits,
        }
    }
}
