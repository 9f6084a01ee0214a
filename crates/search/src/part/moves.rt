// How a part-choice is read and changed.
ghost use Rattle.std.specs.Prelude.{◌≡◌, replicate, slice_index, slice_set};
ghost use Rattle.rules.specs.Bounds.{most_places};

use crate::part::Part;
use crate::pick::Pick;
use rules::MOST_PLACES;

impl Part {
    // Version 1 everywhere, and so many places open.
    pub(crate) fn first(opened: usize) -> Part
        ensures versions { result.versions ≡ replicate most_places 1 }
        ensures opened { result.opened ≡ opened }
    {
        Part {
            versions: [1; MOST_PLACES],
            opened,
        }
    }

    // How many places are open.
    pub fn opened(&self) -> usize
        ensures { result ≡ self.now.opened }
    {
        self.opened
    }

    // The version at an index, that of position 1 being at 0; 0 past the table: the rules read a part-choice so.
    pub fn version(&self, index: usize) -> u8
        ensures { result ≡ slice_index self.now.versions index }
    {
        self.versions.get(index).copied().unwrap_or(0)
    }

    // The same with so many places open.
    pub(crate) fn open_to(self, opened: usize) -> Part
        ensures versions { result.versions ≡ self.versions }
        ensures opened { result.opened ≡ opened }
    {
        let versions = self.versions;
        Part { versions, opened }
    }

    // The same with a version picked for a place, and the places below it open.
    pub(crate) fn with(self, pick: Pick) -> Part
        ensures versions { result.versions ≡ slice_set self.versions pick.index pick.version }
        ensures opened { result.opened ≡ pick.index }
    {
        let mut versions = self.versions;
        versions[pick.index] = pick.version;
        Part {
            versions,
            opened: pick.index,
        }
    }
}
