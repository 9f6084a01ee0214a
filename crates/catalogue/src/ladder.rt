// A catalogue whose amounts rise, or fall, by the same step from version to version.
ghost use Rattle.std.specs.Prelude.{◌≡◌, [], All, IfOk, OnOk, OnErr, is_ok};
ghost use Rattle.std.specs.Result.{IsOkUnless};
ghost use Rattle.arrayvec.specs.ArrayVec.{array_vec_len};
ghost use Rattle.rules.specs.declared.refusals.Refusal.TheVariants.{CountOutside};
ghost use Rattle.catalogue.specs.Places.{allowed_rows, Counted, Versions};
ghost use Rattle.catalogue.specs.Ladder.{ladder_meaning, room_told, with_place};
ghost use Rattle.catalogue.specs.Sounds.{ladder_sound};

use crate::Catalogue;
use crate::places::{check_rows, numbered};
use crate::rung::Rung;
use arrayvec::ArrayVec;
use rules::{MOST_PLACES, MOST_ROWS, MOST_VERSIONS, Refusal};

// A place: how many versions it has, and its rung in each row. A whole table, as `add` takes a rung for every row that there
// may be.
#[derive(Clone, Copy, Default)]
struct LadderPlace {
    count: u8,
    rungs: [Rung; MOST_ROWS],
}

// A catalogue made place by place, with a rung for each row.
#[derive(Drop)]
pub struct Ladder {
    rows: u8,
    places: ArrayVec<LadderPlace, MOST_PLACES>,
    ghost counted: { Counted rows (array_vec_len places) },
    ghost each: { All (λ p. Versions p.count) places.items },
}

impl Ladder {
    // A ladder with no place yet, if it can have that many rows.
    pub fn new(rows: u8) -> Result<Ladder, Refusal>
        ensures allowed { is_ok result ≡ allowed_rows rows }
        ensures refusal { IsOkUnless result CountOutside }
        ensures rows { IfOk result (λ l. l.rows ≡ rows) }
        ensures blank { IfOk result (λ l. l.places.items ≡ []) }
    {
        check_rows(rows)?;
        Ok(Ladder {
            rows,
            places: ArrayVec::new(),
        })
    }

    // A place added behind the others, with so many versions and a rung in each row; nothing is altered where that cannot be.
    pub fn add(&mut self, count: u8, rungs: [Rung; MOST_ROWS]) -> Result<(), Refusal>
        ensures told { result ≡ room_told self.old.places.items count }
        ensures rows { self.new.rows ≡ self.old.rows }
        ensures added { OnOk result (self.new.places.items ≡ with_place self.old.places.items count rungs) }
        ensures kept { OnErr result (self.new.places ≡ self.old.places) }
    {
        if self.places.is_full() {
            return Err(Refusal::PlaceOutOfTurn);
        }
        if !(1..=MOST_VERSIONS).contains(&count) {
            return Err(Refusal::VersionsOutside);
        }
        self.places.push(LadderPlace { count, rungs });
        Ok(())
    }
}

impl Catalogue for Ladder {
    ghost meaning = { λ s. ladder_meaning s.rows s.places.items };

    ghost sound = { λ s. ladder_sound s.rows s.places.items s.counted s.each };

    fn places(&self) -> u8 {
        self.places.len() as u8
    }

    fn rows(&self) -> u8 {
        self.rows
    }

    fn versions(&self, place: u8) -> Option<u8> {
        numbered(&self.places, place).map(|p| p.count)
    }

    fn amount(&self, row: u8, place: u8, version: u8) -> Option<i64> {
        let chosen = numbered(&self.places, place)?;
        if row >= self.rows || !(1..=chosen.count).contains(&version) {
            return None;
        }
        Some(chosen.rungs[usize::from(row)].at(version))
    }
}
