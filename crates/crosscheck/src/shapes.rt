// How large jobs of all sorts are drawn.

// What counts a job may have.
#[derive(Clone, Copy)]
pub(crate) struct Shape {
    pub(crate) least_places: u8,
    pub(crate) most_places: u8,
    // Versions of a place.
    pub(crate) least_versions: u32,
    pub(crate) most_versions: u32,
    // Where more choices would be, a place has fewer versions than it might.
    pub(crate) most_choices: u32,
}

// Few places, with one version or several at each.
pub(crate) const FEW_PLACES: Shape = Shape {
    least_places: 1,
    most_places: 7,
    least_versions: 1,
    most_versions: 6,
    most_choices: 800,
};

// Many places, with one version or two at each, so that there are few choices.
pub(crate) const MANY_PLACES: Shape = Shape {
    least_places: 8,
    most_places: 16,
    least_versions: 1,
    most_versions: 2,
    most_choices: 1 << 16,
};

// Many places, with two versions at each.
pub(crate) const TWO_AT_EACH: Shape = Shape {
    least_versions: 2,
    ..MANY_PLACES
};
