#![tactic(auto)]

// Replays a night on a V830: the answer and the value read of each entry of a bench log.
ghost use Rattle.std.specs.Prelude.{◌≡◌, ◌≤◌, length};

use night::{Next, Night};
use stdio::{Amiss, Listing};

// A listing under way: the buffers and the memory lent to it, where it stands in them, and the night.
#[derive(Drop)]
struct Course<'a> {
    rt: &'a HostRuntime,
    buf: &'a mut [u8],
    out: &'a mut [u8],
    memory: &'a mut [u32],
    listing: Listing,
    night: Night,
    ghost used: { listing.used ≤ listing.have },
    ghost had: { listing.have ≤ length buf.now },
}

impl Course<'_> {
    // Goes on behind the part that was shown: reads on where it wants bytes, ends where nothing is next. A night that
    // begins here is never refused (`begun_passes`, `run_keeps`).
    fn go_on(&mut self, next: Next) {
        let l = self.listing;
        let place = l.place(l.used);
        self.listing = match next {
            Next::Lines => l,
            Next::Bytes => l.read_on(self.rt, self.buf),
            Next::Nothing => l.stop(None),
            Next::Faulted(number) => l.stop(Some(Amiss::Fault(number, place))),
            Next::Refused(why) => l.stop(Some(Amiss::Refused(why.number(), place))),
        };
    }

    // Shows a part of the listing and goes on behind it.
    fn turn(&mut self) {
        let l = self.listing;
        let log = &self.buf[l.used..l.have];
        let part = night::replay(self.night, self.memory, log, l.ended, self.out);
        let shown = Listing {
            used: l.used + part.used,
            at: part.at,
            ..l
        };
        self.night = part.night;
        self.listing = shown.flush(self.rt, self.out);
        self.go_on(part.next);
    }

    // The whole listing, behind its beginning.
    fn run(&mut self) {
        for _ in 0..stdio::TURNS {
            if !self.listing.more {
                break;
            }
            self.turn();
        }
        self.listing.close(self.rt, self.out);
    }
}

// The whole listing.
fn run(rt: &HostRuntime, buf: &mut [u8], out: &mut [u8], memory: &mut [u32]) {
    let at = night::put_heading(out, 0);
    let listing = Listing::begin(at).flush(rt, out);
    let night = night::begin(memory);
    let mut course = Course {
        rt,
        buf,
        out,
        memory,
        listing,
        night,
    };
    course.run();
}

// The two buffers, of 64 KiB for the log and 256 KiB for the listing, and the 16,384 words of the event memory.
fn main(rt: HostRuntime) {
    let mut buf = [0u8; 65536];
    let mut out = [0u8; 262144];
    let mut memory = [0u32; 16384];
    run(&rt, &mut buf, &mut out, &mut memory);
}
