#![tactic(auto)]

// Lists the entries of a bench log.
ghost use Rattle.std.specs.Prelude.{◌≤◌, length};

use benchlog::{Fault, Fields};
use stdio::Listing;

// A listing under way: the two buffers lent to it, and where it stands in them.
#[derive(Drop)]
struct Course<'a> {
    rt: &'a HostRuntime,
    buf: &'a mut [u8],
    out: &'a mut [u8],
    listing: Listing,
    ghost had: { listing.have ≤ length buf.now },
}

// Puts the line of an entry and goes on behind it.
fn listed(out: &mut [u8], l: Listing, e: Fields) -> Listing
    ensures { result.have ≤ l.have }
{
    let numbers = [
        l.place(l.used),
        u64::from(e.kind),
        u64::from(e.first),
        u64::from(e.second),
        u64::from(e.third),
        l.place(e.place),
    ];
    let at = text::put_line(out, l.at, &numbers);
    Listing {
        at,
        used: e.place,
        ..l
    }
}

impl Course<'_> {
    // Lists the entry that comes next, or reads on, or ends the listing. A line has six numbers.
    fn turn(&mut self) {
        let l = self.listing.make_room(self.rt, self.out, 126);
        let read = benchlog::read_entry(&self.buf[..l.have], l.used);
        self.listing = match read {
            Ok(_) => listed(self.out, l, benchlog::numbers_of(read)),
            Err(refused) if !l.ended && refused.fault == Fault::Ends => {
                l.flush(self.rt, self.out).read_on(self.rt, self.buf)
            }
            Err(refused) => l.end(self.out, refused.fault.number()),
        };
    }

    // The listing, turn by turn, until it ends.
    fn run(&mut self) {
        for _ in 0..stdio::TURNS {
            if !self.listing.more {
                break;
            }
            self.turn();
        }
        self.listing.close(self.rt, self.out);
    }
}

// The whole listing.
fn run(rt: &HostRuntime, buf: &mut [u8], out: &mut [u8]) {
    let at = text::put_text(out, 0, b"place kind first second third next\n");
    let listing = Listing::begin(at);
    let mut course = Course {
        rt,
        buf,
        out,
        listing,
    };
    course.run();
}

// The two buffers, of 64 KiB each.
fn main(rt: HostRuntime) {
    let mut buf = [0u8; 65536];
    let mut out = [0u8; 65536];
    run(&rt, &mut buf, &mut out);
}
