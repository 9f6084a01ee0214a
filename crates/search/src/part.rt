// The table of a part-choice.
ghost use Rattle.std.specs.Prelude.{◌≡◌, length};
ghost use Rattle.rules.specs.Bounds.{most_places};

use rules::MOST_PLACES;

// A part-choice: versions by position, of which so many at the lowest positions are open.
// Open places keep a version too, and a part-choice is copied: a whole array.
#[derive(Clone, Copy, Debug, PartialEq, Eq)]
pub struct Part {
    versions: [u8; MOST_PLACES],
    opened: usize,
    ghost long: { length versions ≡ most_places },
}

mod moves;
