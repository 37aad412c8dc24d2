#![tactic(auto)]

// Lists the events of a capture of a V830's memory.
ghost use Rattle.std.specs.Prelude.{◌≡◌, ◌-◌, ◌*◌, ◌≤◌, length, take};
ghost use Rattle.blocks.specs.Words.{word_of, words_from, whole_words, words_in, numbers_of};
ghost use Rattle.layout.specs.Numbers.{reply_of};
ghost use Rattle.layout.specs.Reader.{read_of, answer_given, event_given};

use benchlog::Fault;
use head::Head;
use layout::{Event, Read, Refusal, Reply, Settings};
use stdio::{Amiss, Listing};

// The limits of the head's numbers: header, short, enable.
const LIMITS: [u32; 3] = [1, 1, 4294967295];

// A listing under way: the two buffers lent to it, where it stands in them, the layout of
// its events, and the place in the input of the first captured word.
#[derive(Drop)]
struct Course<'a> {
    rt: &'a HostRuntime,
    buf: &'a mut [u8],
    out: &'a mut [u8],
    listing: Listing,
    settings: Settings,
    from: u64,
    ghost had: { listing.have ≤ length buf.now },
}

// How many bytes of the input buffer are not used yet.
fn unused(l: Listing) -> usize
    ensures { result ≡ l.have - l.used }
{
    l.have.saturating_sub(l.used)
}

// How many words bytes hold, 33 at most, which an event does not exceed.
fn whole_words(bytes: usize) -> usize
    ensures { (result ≡ whole_words bytes) × (result ≤ 33) × (4 * result ≤ bytes) }
{
    (bytes / 4).min(33)
}

// The first `many` words of bytes, four bytes each, the low byte first.
fn words_of(bytes: &[u8], many: usize) -> [u32; 33]
    requires { (many ≤ 33) × (4 * many ≤ length bytes.now) }
    ensures { take many result ≡ words_from many bytes.now 0 }
{
    let mut words = [0u32; 33];
    for i in 0..many {
        let at = 4 * i;
        words[i] = u32::from_le_bytes([bytes[at], bytes[at + 1], bytes[at + 2], bytes[at + 3]]);
    }
    words
}

// The event that bytes begin with.
fn event_in(settings: Settings, bytes: &[u8]) -> Result<Read, Refusal>
    ensures { result ≡ read_of settings (words_in bytes.now) }
{
    let many = whole_words(bytes.len());
    let words = words_of(bytes, many);
    layout::read_event(settings, &words[..many])
}

// What is shown of a reading: its answer's number and value, and its event, all fields 0 where it is refused.
fn shown(reading: Result<Read, Refusal>) -> (Reply, Event)
    ensures { result ≡ (reply_of (answer_given reading), event_given reading) }
{
    match reading {
        Ok(read) => (layout::numbered(Ok(read.length)), read.event),
        Err(why) => (layout::numbered(Err(why)), Event::default()),
    }
}

// The numbers of an event's line.
fn numbers_of(place: u64, reply: Reply, event: Event) -> [u64; 38]
    ensures { result ≡ numbers_of place reply event }
{
    let first = [
        reply.number,
        reply.value,
        event.geo,
        event.source,
        event.trigger,
    ];
    let mut numbers = [place; 38];
    text::put_words(&mut numbers, 1, &first);
    text::put_words(&mut numbers, 6, &event.counts);
    numbers
}

// Puts the line of the event at the first byte not used, and goes on behind it or ends the listing. The first captured
// word stands at the input's place `from`.
fn listed(out: &mut [u8], l: Listing, reading: Result<Read, Refusal>, from: u64) -> Listing
    ensures { result.have ≡ l.have }
{
    let place = l.place(l.used).wrapping_sub(from) / 4;
    let (reply, event) = shown(reading);
    let at = text::put_line(out, l.at, &numbers_of(place, reply, event));
    let next = Listing { at, ..l };
    match reading {
        Ok(read) => Listing {
            used: l.used.wrapping_add(4 * read.length.0 as usize),
            ..next
        },
        Err(why) => next.stop(Some(Amiss::Refused(why.number(), place))),
    }
}

impl Course<'_> {
    // Lists the event that comes next, or reads on where its words are not all there, or ends the listing. A line has
    // 38 numbers.
    fn turn(&mut self) {
        let l = self.listing.make_room(self.rt, self.out, 798);
        self.listing = match self.next_event(l) {
            Some(reading) if reading != Err(Refusal::WordsEnd) || l.ended => {
                listed(self.out, l, reading, self.from)
            }
            None if l.ended => l.end(self.out, Fault::Ends.number()),
            _ => l.flush(self.rt, self.out).read_on(self.rt, self.buf),
        };
    }

    // What is read of the event at the first byte not used, if there is a word of it.
    fn next_event(&self, l: Listing) -> Option<Result<Read, Refusal>>
        requires { l.have ≤ length self.now.buf.now }
    {
        if unused(l) < 4 {
            return None;
        }
        Some(event_in(self.settings, &self.buf[l.used..l.have]))
    }

    // The listing, turn by turn, until it ends.
    fn run(&mut self) -> Listing {
        for _ in 0..stdio::TURNS {
            if !self.listing.more {
                break;
            }
            self.turn();
        }
        self.listing
    }
}

// Lists the events behind a head.
fn list_events(
    rt: &HostRuntime,
    buf: &mut [u8],
    out: &mut [u8],
    first: Listing,
    head: Head,
) -> Listing
    requires { first.have ≤ length buf.old }
{
    let at = text::put_text(
        out,
        0,
        b"place answer length geo source trigger c0 c1 c2 c3 c4 c5 c6 c7 c8 c9 c10 c11 c12 c13 c14 c15 c16 c17 c18 c19 c20 c21 c22 c23 c24 c25 c26 c27 c28 c29 c30 c31\n",
    );
    let settings = Settings {
        header: head.values[0] == 1,
        short: head.values[1] == 1,
        enable: head.values[2],
    };
    let listing = Listing {
        used: head.after,
        at,
        ..first
    };
    let mut course = Course {
        rt,
        buf,
        out,
        listing,
        settings,
        from: head.after as u64,
    };
    course.run()
}

// The listing behind its beginning; a refused head is its fault line alone.
fn list(rt: &HostRuntime, buf: &mut [u8], out: &mut [u8], first: Listing) -> Listing
    requires { first.have ≤ length buf.old }
{
    if !first.more {
        return first;
    }
    match head::read_head(&buf[..first.have], &LIMITS) {
        Ok(head) => list_events(rt, buf, out, first, head),
        Err(fault) => first.fault(out, fault.number()),
    }
}

// The whole listing.
fn run(rt: &HostRuntime, buf: &mut [u8], out: &mut [u8]) {
    let first = head::begin(rt, buf, &LIMITS);
    let last = list(rt, buf, out, first);
    last.close(rt, out);
}

// The two buffers, of 64 KiB each.
fn main(rt: HostRuntime) {
    let mut buf = [0u8; 65536];
    let mut out = [0u8; 65536];
    run(&rt, &mut buf, &mut out);
}
