// Numbers that are drawn.
use rand_core::utils::NextWord;
use rand_pcg::Pcg32;

// Where every sequence starts.
const START: u64 = 42;

// A sequence of numbers, the same at each run.
#[derive(Drop)]
pub(crate) struct Draw {
    words: Pcg32,
}

impl Draw {
    // The sequence of a job.
    pub(crate) fn of(job: u32) -> Draw {
        Draw {
            words: Pcg32::new(START, u64::from(job)),
        }
    }

    // A number below an end, and 0 where that is 0.
    pub(crate) fn below(&mut self, end: u32) -> u32 {
        self.words.next_word().checked_rem(end).unwrap_or(0)
    }

    // Whether one case of so many is drawn.
    pub(crate) fn one_in(&mut self, cases: u32) -> bool {
        self.below(cases) == 0
    }

    // A number from a least one to a greatest.
    pub(crate) fn between(&mut self, least: i32, greatest: i32) -> i32 {
        let above = self.below(greatest.abs_diff(least).saturating_add(1));
        i32::try_from(i64::from(least) + i64::from(above)).unwrap_or(greatest)
    }

    // The same for numbers of a byte.
    pub(crate) fn byte(&mut self, least: u8, greatest: u8) -> u8 {
        let drawn = self.between(i32::from(least), i32::from(greatest));
        u8::try_from(drawn).unwrap_or(least)
    }
}
