// Two catalogues beside one another.
ghost use Rattle.std.specs.Prelude.{◌≡◌};
ghost use Rattle.catalogue.specs.Beside.{besides};
ghost use Rattle.catalogue.specs.Sounds.{besides_sound};

use crate::Catalogue;
use rules::MOST_PLACES;

// The places of the first catalogue and then those of the second, up to the most that there may be.
#[derive(Drop)]
pub struct Beside<F, S> {
    first: F,
    second: S,
}

impl<F, S> Beside<F, S> {
    // Two catalogues put beside one another.
    pub fn new(first: F, second: S) -> Beside<F, S>
        ensures { result ≡ record { first = first; second = second } }
    {
        Beside { first, second }
    }
}

// Each question tests which side has the place: the two are of different types, so that no one value stands for either.
impl<F: Catalogue, S: Catalogue> Catalogue for Beside<F, S> {
    ghost meaning = { λ s. besides (F.Catalogue.meaning s.first) (S.Catalogue.meaning s.second) };

    ghost sound = { λ s. besides_sound (F.Catalogue.meaning s.first) (S.Catalogue.meaning s.second) (F.Catalogue.sound s.first) (S.Catalogue.sound s.second) };

    fn places(&self) -> u8 {
        (self.first.places() + self.second.places()).min(MOST_PLACES as u8)
    }

    fn rows(&self) -> u8 {
        self.first.rows().min(self.second.rows())
    }

    fn versions(&self, place: u8) -> Option<u8> {
        let shift = self.first.places();
        if place > self.places() {
            None
        } else if place <= shift {
            self.first.versions(place)
        } else {
            self.second.versions(place - shift)
        }
    }

    // Inlined, since a total over places asks for one amount after the other.
    #[inline(always)]
    fn amount(&self, row: u8, place: u8, version: u8) -> Option<i64> {
        let shift = self.first.places();
        if row >= self.rows() || place > self.places() {
            None
        } else if place <= shift {
            self.first.amount(row, place, version)
        } else {
            self.second.amount(row, place - shift, version)
        }
    }
}
