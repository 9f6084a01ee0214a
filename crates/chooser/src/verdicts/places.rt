// What a search found by position, read by place.
ghost use Rattle.std.specs.Prelude.{◌≡◌, ◌≤◌, length, slice_index, ◌==◌};
ghost use Rattle.std.specs.List.{position};
ghost use Rattle.rules.specs.Bounds.{most_places};
ghost use Rattle.rules.specs.Settings.{version_in, by_place, closing_lines};
ghost use Rattle.search.specs.Parts.{part_of};
ghost use Rattle.search.specs.Closings.{closing_of};

use crate::verdicts::ClosingGround;
use arrayvec::ArrayVec;
use rules::{ClosingLine, MOST_PLACES, Sheet};
use search::{Closing, Part};

// The version at an index of a part-choice of so many places, and 0 past its end.
fn version_at(part: &Part, places: usize, index: usize) -> u8
    ensures { result ≡ slice_index (part_of places part.now) index }
{
    let at = part.opened().saturating_add(index);
    if at < places { part.version(at) } else { 0 }
}

// The first index at which a place stands in an order.
fn index_of(order: &[u8], place: u8) -> Option<usize>
    ensures { result ≡ position (λ listed. listed == place) order.now }
{
    order.iter().position(|listed| *listed == place)
}

// The version of a place in a part-choice that goes by an order, and 0 where it has none.
fn version_in(order: &[u8], part: &Part, place: u8) -> u8
    ensures { result ≡ version_in order.now (part_of (length order.now) part.now) place }
{
    match index_of(order, place) {
        Some(index) => version_at(part, order.len(), index),
        None => 0,
    }
}

// The versions by place, of a part-choice that goes by the order of a sheet.
pub(crate) fn by_place(sheet: &Sheet, part: &Part) -> ArrayVec<u8, MOST_PLACES>
    requires few { sheet.now.places ≤ most_places }
    ensures { result.items ≡ by_place sheet.now (part_of sheet.now.places part.now) }
{
    let order = &sheet.order[..usize::from(sheet.places)];
    let mut versions = ArrayVec::new();
    for place in 1..=sheet.places {
        versions.push(version_in(order, part, place));
    }
    versions
}

// The lines of a closing ground: it lies above all positions, so that their levels say nothing.
pub(crate) fn closing_ground(closing: &Closing) -> ClosingGround
    ensures { result.lines.items ≡ closing_lines (closing_of closing.now) }
{
    let mut lines = ArrayVec::new();
    for line in closing.lines() {
        lines.push(ClosingLine {
            row: line.row,
            constant: line.constant,
        });
    }
    ClosingGround { lines }
}
