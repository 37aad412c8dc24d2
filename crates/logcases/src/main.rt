#![tactic(auto)]

// Reads many small logs in one run and shows what the log reader answers at each place.
ghost use Rattle.std.specs.Prelude.{◌≡◌, ◌≤◌, length, IfOk};

use benchlog::{Fault, Fields, Numeral, Reading, Refused};
use stdio::Listing;

// A listing under way: the two buffers lent to it, and where it stands in them.
#[derive(Drop)]
struct Course<'a> {
    rt: &'a HostRuntime,
    buf: &'a mut [u8],
    out: &'a mut [u8],
    listing: Listing,
    ghost had: { listing.have ≤ length buf.now },
}

// A case: its start, and where its bytes stand.
#[derive(Clone, Copy)]
struct Case {
    start: usize,
    from: usize,
    to: usize,
}

// A numeral as numbers: 0, its value and the place after it, or the refusal's number, 0 and the place
// that was given.
fn numbers_of(numeral: Result<Numeral, Refused>) -> [u64; 3] {
    match numeral {
        Ok(Numeral { value, next }) => [0, u64::from(value), next as u64],
        Err(Refused { fault, place }) => [u64::from(fault.number()), 0, place as u64],
    }
}

// The case at a place.
fn read_case(input: &[u8], at: usize) -> Result<Case, Fault>
    ensures { IfOk result (λ c. (c.from ≤ c.to) × (c.to ≤ length input.now)) }
{
    let start = benchlog::read_argument(input, at, 65535)?;
    let bytes = benchlog::read_argument(input, start.next, 60000)?;
    let from = bytes.next;
    let many = bytes.value as usize;
    if from > input.len() || many > input.len() - from {
        return Err(Fault::Ends);
    }
    Ok(Case {
        start: start.value as usize,
        from,
        to: from + many,
    })
}

// Puts the line of a call.
fn put_call(
    rt: &HostRuntime,
    out: &mut [u8],
    before: Listing,
    e: Fields,
    numeral: Result<Numeral, Refused>,
) -> Listing
    ensures { result.have ≡ before.have }
{
    let [answer, value, after] = numbers_of(numeral);
    let numbers = [
        u64::from(e.answer),
        u64::from(e.kind),
        u64::from(e.first),
        u64::from(e.second),
        u64::from(e.third),
        e.place as u64,
        answer,
        value,
        after,
    ];
    let l = before.make_room(rt, out, 189);
    let at = text::put_line(out, l.at, &numbers);
    Listing { at, ..l }
}

// Puts the lines of a case. A log of n bytes has at most n entries, and a refusal behind them.
fn put_case(rt: &HostRuntime, log: &[u8], start: usize, out: &mut [u8], before: Listing) -> Listing
    ensures { result.have ≡ before.have }
{
    let mut place = start;
    let mut l = before;
    for _ in 0..=log.len() {
        let read = benchlog::read_entry(log, place);
        let number = benchlog::read_number(log, place);
        l = put_call(rt, out, l, benchlog::numbers_of(read), number);
        let Ok(Reading { next, .. }) = read else {
            break;
        };
        place = next;
    }
    l
}

impl Course<'_> {
    // Lists the case that comes next, or reads on, or ends the listing.
    fn turn(&mut self) {
        let l = self.listing;
        self.listing = match read_case(&self.buf[..l.have], l.used) {
            Ok(Case { start, from, to }) => {
                let after = put_case(self.rt, &self.buf[from..to], start, self.out, l);
                Listing { used: to, ..after }
            }
            Err(fault) if !l.ended && fault == Fault::Ends => {
                l.flush(self.rt, self.out).read_on(self.rt, self.buf)
            }
            Err(fault) => {
                let roomy = l.make_room(self.rt, self.out, 48);
                roomy.end(self.out, fault.number())
            }
        };
    }

    // The listing, turn by turn, until it ends.
    fn run(&mut self) {
        for _ in 0..stdio::TURNS {
            if !self.listing.more {
                break;
            }
            self.turn();
        }
        self.listing.close(self.rt, self.out);
    }
}

// The whole listing.
fn run(rt: &HostRuntime, buf: &mut [u8], out: &mut [u8]) {
    let at = text::put_text(
        out,
        0,
        b"answer kind first second third place number value after\n",
    );
    let listing = Listing::begin(at);
    let mut course = Course {
        rt,
        buf,
        out,
        listing,
    };
    course.run();
}

// The two buffers, of 64 KiB each.
fn main(rt: HostRuntime) {
    let mut buf = [0u8; 65536];
    let mut out = [0u8; 65536];
    run(&rt, &mut buf, &mut out);
}
