// What a grid is asked.
ghost use Rattle.std.specs.Prelude.{◌≡◌, ◌+◌, ◌<◌, ◌≤◌, slice_index_or, unsigned_abs};
ghost use Rattle.rules.specs.Bounds.{most_places, most_versions, greatest_row, greatest_amount};
ghost use Rattle.rules.specs.declared.kinds.Kind.TheVariants.{SumAtMost};
ghost use Rattle.search.specs.Settings.{setting};

use crate::grid::Grid;
use crate::pick::Pick;
use rules::{Kind, MOST_VERSIONS};

impl Grid {
    // How many places there are.
    pub(crate) fn places(&self) -> usize
        ensures is { result ≡ self.now.places }
        ensures most { result ≤ most_places }
    {
        self.places
    }

    // The number of the last row.
    pub(crate) fn last_row(&self) -> usize
        ensures is { result ≡ self.now.last_row }
        ensures most { result ≤ greatest_row }
    {
        self.last_row
    }

    // The kind of a row, which is a plain number here as it is in a line.
    pub(crate) fn kind(&self, row: u8) -> Kind
        requires { row ≤ greatest_row }
        ensures { result ≡ slice_index_or self.now.kinds row SumAtMost }
    {
        self.kinds[usize::from(row)]
    }

    // How many versions the place at an index has, that of position 1 being at 0.
    pub(crate) fn versions(&self, index: usize) -> u8
        requires { index < most_places }
        ensures is { result ≡ (setting self.now).versions (index + 1) }
        ensures most { result ≤ most_versions }
    {
        self.positions[index].count
    }

    // The amount of a row with a picked version. 0 where there can be no such version: a setting has an amount everywhere.
    pub(crate) fn amount(&self, row: u8, pick: Pick) -> i64
        requires { row ≤ greatest_row }
        ensures is { result ≡ (setting self.now).amount row (pick.index + 1) pick.version }
        ensures near { unsigned_abs result ≤ greatest_amount }
    {
        match pick.version {
            1..=MOST_VERSIONS => {
                let at = usize::from(pick.version) - 1;
                i64::from(self.positions[pick.index].versions[at].rows[usize::from(row)])
            }
            _ => 0,
        }
    }
}
