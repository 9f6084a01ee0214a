// The text of a catalogue.
ghost use Rattle.std.specs.Prelude.{Some};
ghost use Rattle.shown.specs.Texts.{version_text, place_text, catalogue_text};

use catalogue::Catalogue;
use std::fmt;

// The amounts of a version, a row after the other, in a line.
#[derive(Drop)]
struct VersionText<'a, C> {
    catalogue: &'a C,
    place: u8,
    version: u8,
}

impl<C: Catalogue> fmt::Display for VersionText<'_, C> {
    ghost output = { λ text. Some (version_text (C.Catalogue.meaning text.catalogue.now) text.place text.version) };

    #[tactic(auto, unfolding(crate::specs::Texts::version_text))]
    fn fmt<W: fmt::Write>(&self, f: &mut fmt::Formatter<W>) -> fmt::Result {
        let (place, version) = (self.place, self.version);
        write!(f, "PLACE {place} VERSION {version} AMOUNTS")?;
        for row in 0..self.catalogue.rows() {
            match self.catalogue.amount(row, place, version) {
                Some(amount) => write!(f, " {amount}")?,
                None => write!(f, " -")?,
            }
        }
        writeln!(f)
    }
}

// The versions of a place, a line each; no line where there is no such place.
#[derive(Drop)]
struct PlaceText<'a, C> {
    catalogue: &'a C,
    place: u8,
}

impl<C: Catalogue> fmt::Display for PlaceText<'_, C> {
    ghost output = { λ text. Some (place_text (C.Catalogue.meaning text.catalogue.now) text.place) };

    fn fmt<W: fmt::Write>(&self, f: &mut fmt::Formatter<W>) -> fmt::Result {
        let (catalogue, place) = (self.catalogue, self.place);
        for version in 1..=catalogue.versions(place).unwrap_or(0) {
            let line = VersionText {
                catalogue,
                place,
                version,
            };
            write!(f, "{line}")?;
        }
        Ok(())
    }
}

// The amounts of every version of a catalogue, a line each.
#[derive(Drop)]
pub struct CatalogueText<'a, C>(pub &'a C);

impl<C: Catalogue> fmt::Display for CatalogueText<'_, C> {
    ghost output = { λ text. Some (catalogue_text (C.Catalogue.meaning text.0.now)) };

    fn fmt<W: fmt::Write>(&self, f: &mut fmt::Formatter<W>) -> fmt::Result {
        let catalogue = self.0;
        for place in 1..=catalogue.places() {
            let lines = PlaceText { catalogue, place };
            write!(f, "{lines}")?;
        }
        Ok(())
    }
}
