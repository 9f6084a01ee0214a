// What the amounts of a row come to over places.
ghost use Rattle.std.specs.Prelude.{◌≡◌, ◌+◌, ◌<◌};
ghost use Rattle.rules.specs.Joinings.{joined_over};
ghost use Rattle.rules.specs.Choices.{version};
ghost use Rattle.rules.specs.Settings.{amount_in};

use crate::Joining;
use catalogue::Catalogue;

// The amount of a row at the place of an index, that of place 1 being at 0; 0 where the catalogue has none.
// Inlined, so that what doesn't change from place to place is looked up once.
#[inline(always)]
fn amount_at<C: Catalogue>(catalogue: &C, row: u8, index: u8, versions: &[u8]) -> i64
    requires { index < 255 }
    ensures { result ≡ amount_in (C.Catalogue.meaning catalogue.now) row (index + 1) (version versions.now (index + 1)) }
{
    let version = versions.get(usize::from(index)).copied().unwrap_or(0);
    catalogue.amount(row, index + 1, version).unwrap_or(0)
}

// The amounts of a row joined over so many places, with the version of each in a list by place; a place past the list has
// version 0, and what the catalogue has not is 0.
pub fn total<J: Joining, C: Catalogue>(catalogue: &C, row: u8, places: u8, versions: &[u8]) -> i64
    ensures { result ≡ joined_over J.Joining.rule (λ q. amount_in (C.Catalogue.meaning catalogue.now) row q (version versions.now q)) places }
{
    let mut total = J::UNIT;
    for index in 0..places {
        total = J::join(total, amount_at(catalogue, row, index, versions));
    }
    total
}
