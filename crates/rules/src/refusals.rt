// Why a job or a call is refused.
ghost use Rattle.std.specs.Prelude.{◌≡◌, ◌++◌, Some, codes, decimal};
ghost use Rattle.rules.specs.Refusals.{refusal_number, refusal_layer, fault};

use std::error::Error;
use std::fmt;

// A refusal goes by its number in faults and reports.
#[derive(Clone, Copy, Debug, PartialEq, Eq)]
pub enum Refusal {
    // The file is longer than a file may be.
    FileTooLong = 1,
    // A field ends before its head or its body does, or passes the end of the bytes.
    FieldCut = 2,
    // A tag isn't allowed where it stands, or the file ends before its order field.
    TagNotAllowed = 3,
    // The length of a field isn't that of its tag.
    WrongLength = 4,
    // A call record has a code that there isn't, or a part that its code doesn't use isn't 0.
    NoCall = 5,
    // A sheet has no place or too many, or too many rows; or a catalogue is to have no row or too many.
    CountOutside = 6,
    // A row's kind has a number that stands for none.
    UnknownKind = 7,
    // A limit lies too far from 0.
    LimitBeyond = 8,
    // The order doesn't list each place once.
    OrderNotOnce = 9,
    // A place comes out of turn or lies above the number of places.
    PlaceOutOfTurn = 10,
    // A place has one version too many, or a ladder none or too many.
    VersionsOutside = 11,
    // The catalogue has other counts of places or rows than the sheet.
    CountsDiffer = 12,
    // An amount lies too far from 0.
    AmountBeyond = 13,
    // The job is closed where the call wants a running search, or the other way round.
    NotInThisState = 14,
    // A row is named that there isn't.
    NoSuchRow = 15,
    // A budget lies outside, or would take the search past the most steps.
    BudgetBeyond = 16,
    // A lent buffer is shorter than what is written into it may be.
    BufferTooShort = 17,
}

impl Refusal {
    // The number by which the refusal is told.
    pub fn number(self) -> u8
        ensures { result ≡ refusal_number self }
    {
        self as u8
    }

    // The layer that tests for it: 1 the file, 2 the sheet, 3 the catalogue, 4 the job. A number, as faults keep it and
    // reports tell it.
    pub fn layer(self) -> u8
        ensures { result ≡ refusal_layer self }
    {
        match self.number() {
            0..=5 => 1,
            6..=9 => 2,
            10..=13 => 3,
            _ => 4,
        }
    }
}

// What a report says of a refused call.
impl fmt::Display for Refusal {
    ghost output = { λ refusal. Some (codes "REFUSED " ++ decimal (refusal_number refusal)) };

    fn fmt<W: fmt::Write>(&self, f: &mut fmt::Formatter<W>) -> fmt::Result {
        let number = self.number();
        write!(f, "REFUSED {number}")
    }
}

impl Error for Refusal {}

// A refusal with the place where it was met; a number that says nothing is 0. All are plain numbers, as a job keeps its
// fault and a report tells it.
#[derive(Clone, Copy, Debug, Default, PartialEq, Eq)]
pub struct Fault {
    pub layer: u8,
    pub number: u8,
    pub byte: u16,
    pub place: u8,
    pub version: u8,
    pub row: u8,
}

// A refusal that says nothing of where it was met.
impl From<Refusal> for Fault {
    ghost from_gives = { λ refusal told. told ≡ fault refusal };

    fn from(refusal: Refusal) -> Fault {
        Fault {
            layer: refusal.layer(),
            number: refusal.number(),
            ..Fault::default()
        }
    }
}
