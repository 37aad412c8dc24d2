#![tactic(auto)]

// Event blocks of the V830: one layout, written and read. Knows no module.
ghost use Rattle.std.specs.Prelude.{◌≡◌, ◌≤◌};
ghost use Rattle.std.specs.Int.Count.{ones_in};
ghost use Rattle.layout.specs.Length.{words, header_length, event_length, events_in};
ghost use Rattle.layout.specs.Numbers.{refusal_number, reply_of};
ghost use Rattle.layout.specs.Reader.{no_event};

mod channels;
mod reader;
mod writer;

pub use reader::read_event;
pub use writer::write_event;

// A number of words.
#[derive(Clone, Copy, PartialEq, Eq, Debug)]
pub struct Words(pub u32);

// A number of events.
#[derive(Clone, Copy, PartialEq, Eq, Debug)]
pub struct Events(pub u32);

// What fixes the layout: whether events have a header, whether data are short, and Channel Enable.
#[derive(Clone, Copy, PartialEq, Eq, Debug)]
pub struct Settings {
    pub header: bool,
    pub short: bool,
    pub enable: u32,
}

// An event: GEO, trigger source, trigger number, and a count for each channel.
#[derive(Clone, Copy, PartialEq, Eq, Debug)]
pub struct Event {
    pub geo: u32,
    pub source: u32,
    pub trigger: u32,
    pub counts: [u32; 32],
}

// Why reader or writer refuses.
#[derive(Clone, Copy, PartialEq, Eq, Debug)]
pub enum Refusal {
    NoWords,
    WordsEnd,
    NotAHeader,
    CountAbove32,
    DatumWithBit26,
    AnotherChannel,
    AnotherCount,
    Bits25And24,
    TooFewLent,
    NotAnEvent,
}

// What reader and writer answer: the event's length, or why they refuse.
pub type Answer = Result<Words, Refusal>;

// An answer as document 01 has it: its number, and its value, which is the length.
#[derive(Clone, Copy, PartialEq, Eq, Debug)]
pub struct Reply {
    pub number: u32,
    pub value: u32,
}

// An event that was read: its length and the event.
#[derive(Clone, Copy, PartialEq, Eq, Debug)]
pub struct Read {
    pub length: Words,
    pub event: Event,
}

impl Refusal {
    // Its number.
    pub fn number(self) -> u32
        ensures { result ≡ refusal_number self }
    {
        match self {
            Refusal::NoWords => 8,
            Refusal::WordsEnd => 20,
            Refusal::NotAHeader => 21,
            Refusal::CountAbove32 => 22,
            Refusal::DatumWithBit26 => 23,
            Refusal::AnotherChannel => 24,
            Refusal::AnotherCount => 25,
            Refusal::Bits25And24 => 26,
            Refusal::TooFewLent => 27,
            Refusal::NotAnEvent => 28,
        }
    }
}

// All fields 0, which is what is shown of an event where the reader refuses.
impl Default for Event {
    ghost is_default = { λ event. event ≡ no_event };

    fn default() -> Event {
        Event {
            geo: 0,
            source: 0,
            trigger: 0,
            counts: [0; 32],
        }
    }
}

// The number and the value of an answer; a refusal comes with the value 0.
pub fn numbered(answer: Answer) -> Reply
    ensures { result ≡ reply_of answer }
{
    match answer {
        Ok(length) => Reply {
            number: 0,
            value: length.0,
        },
        Err(why) => Reply {
            number: why.number(),
            value: 0,
        },
    }
}

// How many channels are enabled: the ones of Channel Enable.
pub(crate) fn enabled_channels(enable: u32) -> u32
    ensures { (result ≡ ones_in 32 enable) × (result ≤ 32) }
{
    enable.count_ones()
}

impl Settings {
    // The length of an event: the ones of Channel Enable, plus 1 with header.
    pub fn event_length(self) -> Words
        ensures { result ≡ words (event_length self) }
    {
        let ones = enabled_channels(self.enable);
        if self.header {
            Words(ones + 1)
        } else {
            Words(ones)
        }
    }

    // The place of the first datum: behind the header, which is one word.
    pub(crate) fn data_place(self) -> usize
        ensures { result ≡ header_length self }
    {
        usize::from(self.header)
    }

    // The events that the words stored are: divided by the event length, rounded up, 0 if none; none can be told where
    // an event would have no words.
    pub fn events_in(self, stored: Words) -> Option<Events>
        ensures { result ≡ events_in self stored.0 }
    {
        let event = self.event_length();
        if stored.0 == 0 {
            return Some(Events(0));
        }
        if event.0 == 0 {
            return None;
        }
        Some(Events(stored.0.div_ceil(event.0)))
    }
}
