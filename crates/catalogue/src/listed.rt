// The catalogue whose amounts are read from the bytes of version fields.
ghost use Rattle.std.specs.Prelude.{◌≡◌, ◌+◌, ◌^◌, ◌<◌, ◌≤◌, [], length, slice_index, All, IfOk, OnOk, OnErr, is_ok};
ghost use Rattle.std.specs.Result.{IsOkUnless};
ghost use Rattle.arrayvec.specs.ArrayVec.{array_vec_len};
ghost use Rattle.rules.specs.declared.refusals.Refusal.TheVariants.{CountOutside};
ghost use Rattle.rules.specs.Numbers.{number_at};
ghost use Rattle.catalogue.specs.Places.{allowed_rows, Counted, Versions};
ghost use Rattle.catalogue.specs.Listed.{amount_start, behind, Bytes, field_fits, listed_meaning, next_start, place_told, version_told, version_width, versions_so_far, with_first_version, with_next_version};
ghost use Rattle.catalogue.specs.Sounds.{listed_sound};

use crate::Catalogue;
use crate::places::{check_rows, numbered};
use arrayvec::ArrayVec;
use rules::{MOST_PLACES, MOST_VERSIONS, Refusal, number_at};

// The bytes at the front of a version field, before its amounts.
const FRONT: usize = 4;

// The bytes of an amount.
const WIDTH: usize = 4;

// A place: how many versions it has, and the byte where the field of its first version begins.
#[derive(Clone, Copy, Default)]
struct ListedPlace {
    count: u8,
    start: usize,
}

// Where the version fields of each place lie, made place by place and version by version.
#[derive(Drop)]
pub struct Listing {
    // No field passes this byte.
    end: usize,
    rows: u8,
    places: ArrayVec<ListedPlace, MOST_PLACES>,
    // In the logic a number behind a reference is any whole number unless a fact says otherwise.
    ghost index: { end < 2 ^ 64 },
    ghost counted: { Counted rows (array_vec_len places) },
    ghost each: { All (λ p. Versions p.count) places.items },
    ghost within: { All (λ p. next_start rows p ≤ end) places.items },
}

// The bytes of a version field with so many rows.
fn version_width(rows: u8) -> usize
    ensures { result ≡ version_width rows }
{
    FRONT + WIDTH * usize::from(rows)
}

impl ListedPlace {
    // The byte behind the fields of so many versions.
    fn behind(self, rows: u8, count: u8) -> usize
        requires { behind rows self count < 2 ^ 64 }
        ensures { result ≡ behind rows self count }
    {
        self.start + usize::from(count) * version_width(rows)
    }

    // The byte where the amount of a row in a version begins.
    fn amount_start(self, rows: u8, row: u8, version: u8) -> usize
        requires { amount_start rows self row version < 2 ^ 64 }
        ensures { result ≡ amount_start rows self row version }
    {
        self.behind(rows, version.saturating_sub(1)) + FRONT + WIDTH * usize::from(row)
    }
}

impl Listing {
    // A listing with no place yet, over bytes up to an end, if it can have that many rows.
    pub fn new(end: usize, rows: u8) -> Result<Listing, Refusal>
        ensures allowed { is_ok result ≡ allowed_rows rows }
        ensures refusal { IsOkUnless result CountOutside }
        ensures end { IfOk result (λ l. l.end ≡ end) }
        ensures rows { IfOk result (λ l. l.rows ≡ rows) }
        ensures blank { IfOk result (λ l. l.places.items ≡ []) }
    {
        check_rows(rows)?;
        Ok(Listing {
            end,
            rows,
            places: ArrayVec::new(),
        })
    }

    // A version field that begins at a byte does not pass the end.
    fn fits(&self, start: usize) -> bool
        ensures { result ≡ field_fits self.now.end self.now.rows start }
    {
        self.end
            .checked_sub(start)
            .is_some_and(|left| version_width(self.rows) <= left)
    }

    // How many places are added.
    pub fn places(&self) -> u8
        ensures { result ≡ array_vec_len self.now.places }
    {
        self.places.len() as u8
    }

    // How many versions a place has so far. A count: a place that isn't added yet has 0, as a reader asks before the first.
    pub fn versions(&self, place: u8) -> u8
        ensures { result ≡ versions_so_far self.now.places.items place }
    {
        numbered(&self.places, place).map_or(0, |p| p.count)
    }

    // A place added behind the others, with one version whose field begins at a byte; nothing is altered where that cannot be.
    pub fn add_place(&mut self, start: usize) -> Result<(), Refusal>
        ensures told { result ≡ place_told self.old.end self.old.rows self.old.places.items start }
        ensures end { self.new.end ≡ self.old.end }
        ensures rows { self.new.rows ≡ self.old.rows }
        ensures added { OnOk result (self.new.places.items ≡ with_first_version self.old.places.items start) }
        ensures kept { OnErr result (self.new.places ≡ self.old.places) }
    {
        if self.places.is_full() {
            return Err(Refusal::PlaceOutOfTurn);
        }
        if !self.fits(start) {
            return Err(Refusal::FieldCut);
        }
        self.places.push(ListedPlace { count: 1, start });
        Ok(())
    }

    // A version added to the last place, whose field follows its last one; nothing is altered where that cannot be.
    pub fn add_version(&mut self) -> Result<(), Refusal>
        ensures told { result ≡ version_told self.old.end self.old.rows self.old.places.items }
        ensures end { self.new.end ≡ self.old.end }
        ensures rows { self.new.rows ≡ self.old.rows }
        ensures added { OnOk result (self.new.places.items ≡ with_next_version self.old.places.items) }
        ensures kept { OnErr result (self.new.places ≡ self.old.places) }
    {
        let last = self
            .places
            .len()
            .checked_sub(1)
            .ok_or(Refusal::PlaceOutOfTurn)?;
        let place = self.places[last];
        if place.count >= MOST_VERSIONS {
            return Err(Refusal::VersionsOutside);
        }
        if !self.fits(place.behind(self.rows, place.count)) {
            return Err(Refusal::FieldCut);
        }
        // By index, since a `&mut` to the last place would be lent from before the tests, which alter nothing.
        self.places[last].count += 1;
        Ok(())
    }
}

// A catalogue over the bytes that hold its amounts; a byte that there is not counts as 0.
#[derive(Drop)]
pub struct Listed<'a> {
    bytes: &'a [u8],
    listing: Listing,
    ghost small: { Bytes bytes.now },
}

impl<'a> Listed<'a> {
    // The catalogue of a listing whose fields lie in these bytes.
    pub fn new(bytes: &'a [u8], listing: Listing) -> Listed<'a>
        ensures bytes { result.bytes.now ≡ bytes.now }
        ensures listing { result.listing ≡ listing }
    {
        // What has been read is known to be bytes.
        let _first = bytes.first();
        Listed { bytes, listing }
    }
}

impl<'a> Catalogue for Listed<'a> {
    ghost meaning = { λ s. listed_meaning s.bytes.now s.listing.rows s.listing.places.items };

    ghost sound = { λ s. listed_sound s.bytes.now s.listing.rows s.listing.places.items s.listing.counted s.listing.each s.small };

    fn places(&self) -> u8 {
        self.listing.places()
    }

    fn rows(&self) -> u8 {
        self.listing.rows
    }

    fn versions(&self, place: u8) -> Option<u8> {
        numbered(&self.listing.places, place).map(|p| p.count)
    }

    fn amount(&self, row: u8, place: u8, version: u8) -> Option<i64> {
        let listing = &self.listing;
        let chosen = numbered(&listing.places, place)?;
        if row >= listing.rows || !(1..=chosen.count).contains(&version) {
            return None;
        }
        let at = chosen.amount_start(listing.rows, row, version);
        Some(i64::from(number_at(self.bytes, at)))
    }
}
