#![tactic(auto)]

// The bench log: numbers in groups of seven bits, and entries of eight kinds. Knows no module.
ghost use Rattle.std.specs.Prelude.{◌≡◌};
ghost use Rattle.benchlog.specs.Faults.{fault_number};
ghost use Rattle.benchlog.specs.Fields.{fields_of, entry_fields};

mod entries;
mod numbers;

pub use entries::{read_argument, read_entry};
pub use numbers::read_number;

// Why a log is refused.
#[derive(Clone, Copy, PartialEq, Eq, Debug)]
pub enum Fault {
    Ends,
    NotShortest,
    TooLarge,
    NoSuchKind,
    OutOfRange,
}

// A number that was read, and the place after it.
#[derive(Clone, Copy, PartialEq, Eq, Debug)]
pub struct Numeral {
    pub value: u32,
    pub next: usize,
}

// An entry. A veto line is on or off; a read has offset and width, a write data besides.
#[derive(Clone, Copy, PartialEq, Eq, Debug)]
pub enum Entry {
    Pulse(u32, u32),
    Veto(bool),
    Test,
    Clear,
    Trigger,
    Read(u32, u32),
    Write(u32, u32, u32),
    ManClr,
}

// An entry that was read, and the place after it.
#[derive(Clone, Copy, PartialEq, Eq, Debug)]
pub struct Reading {
    pub entry: Entry,
    pub next: usize,
}

// Why nothing was read, and the place that was given.
#[derive(Clone, Copy, PartialEq, Eq, Debug)]
pub struct Refused {
    pub fault: Fault,
    pub place: usize,
}

// A reading as numbers: answer (0 when done), kind, the arguments in the log's order, and the place.
#[derive(Clone, Copy)]
pub struct Fields {
    pub answer: u32,
    pub kind: u32,
    pub first: u32,
    pub second: u32,
    pub third: u32,
    pub place: usize,
}

impl Fault {
    // The number of a fault.
    pub fn number(self) -> u32
        ensures { result ≡ fault_number self }
    {
        match self {
            Fault::Ends => 30,
            Fault::NotShortest => 31,
            Fault::TooLarge => 32,
            Fault::NoSuchKind => 33,
            Fault::OutOfRange => 34,
        }
    }

    // The refusal for a fault, of what was to be read at a place.
    pub(crate) fn at(self, place: usize) -> Refused
        ensures { result ≡ record { fault = self; place = place } }
    {
        Refused { fault: self, place }
    }
}

// The numbers of a reading: a refused one has all fields 0 and the place that was given.
pub fn numbers_of(reading: Result<Reading, Refused>) -> Fields
    ensures { result ≡ fields_of reading }
{
    match reading {
        Ok(Reading { entry, next }) => numbers_of_entry(entry, next),
        Err(Refused { fault, place }) => Fields {
            answer: fault.number(),
            kind: 0,
            first: 0,
            second: 0,
            third: 0,
            place,
        },
    }
}

// The numbers of an entry, with the place after it.
fn numbers_of_entry(entry: Entry, place: usize) -> Fields
    ensures { result ≡ entry_fields entry place }
{
    match entry {
        Entry::Pulse(channel, n) => done(0, channel, n, 0, place),
        Entry::Veto(on) => done(1, if on { 1 } else { 0 }, 0, 0, place),
        Entry::Test => done(2, 0, 0, 0, place),
        Entry::Clear => done(3, 0, 0, 0, place),
        Entry::Trigger => done(4, 0, 0, 0, place),
        Entry::Read(offset, width) => done(5, offset, width, 0, place),
        Entry::Write(offset, width, data) => done(6, offset, width, data, place),
        Entry::ManClr => done(7, 0, 0, 0, place),
    }
}

// The record of an entry that was read.
fn done(kind: u32, first: u32, second: u32, third: u32, place: usize) -> Fields
    ensures { result ≡ record { answer = 0; kind = kind; first = first; second = second; third = third; place = place } }
{
    Fields {
        answer: 0,
        kind,
        first,
        second,
        third,
        place,
    }
}
