// A version for one place.
ghost use Rattle.std.specs.Prelude.{◌<◌};
ghost use Rattle.rules.specs.Bounds.{most_places};

// A version for the place at an index, that of position 1 being at 0.
#[derive(Clone, Copy)]
pub(crate) struct Pick {
    pub(crate) index: usize,
    pub(crate) version: u8,
    ghost there: { index < most_places },
}
