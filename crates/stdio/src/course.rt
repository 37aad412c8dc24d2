// A listing of what standard input holds: what is read, and where it stands in the two buffers.
ghost use Rattle.std.specs.Prelude.{◌≡◌, length};
ghost use Rattle.text.specs.Line.{failed_line, put_in};
ghost use Rattle.stdio.specs.Window.{room_at};
ghost use Rattle.stdio.specs.Listings.{begun, place_of, ReadOn, moved_to, is_lost, lost_by, written_by, roomy_by, stopped, faulted, fault_text, end_of, end_text, closed_text};

use crate::words::{number_of, say, say_failed};
use crate::{Amiss, Listing, refill};
use std::io;

impl Listing {
    // A listing of which nothing is read yet, with `at` bytes in the output buffer.
    pub fn begin(at: usize) -> Listing
        ensures { result ≡ begun at }
    {
        Listing {
            used: 0,
            have: 0,
            ended: false,
            base: 0,
            at,
            more: true,
            amiss: None,
        }
    }

    // The place in the input of a place of the input buffer.
    pub fn place(self, at: usize) -> u64
        ensures { result ≡ place_of self at }
    {
        self.base.wrapping_add(at as u64)
    }

    // Reads on, behind the bytes that are not used yet, where the listing goes on.
    pub fn read_on(self, rt: &HostRuntime, buf: &mut [u8]) -> Listing
        ensures { ReadOn buf.old self buf.new result }
    {
        if !self.more {
            return self;
        }
        let w = refill(rt, buf, self.used, self.have);
        Listing {
            used: 0,
            have: w.have,
            ended: w.ended,
            base: self.place(self.used),
            more: w.amiss.is_none(),
            amiss: w.amiss,
            ..self
        }
    }

    // The listing with `at` bytes in the output buffer.
    fn moved(self, at: usize) -> Listing
        ensures { result ≡ moved_to self at }
    {
        Listing { at, ..self }
    }

    // Whether a write failed.
    fn is_lost(self) -> bool
        ensures { result ≡ is_lost self.amiss }
    {
        matches!(self.amiss, Some(Amiss::Write(_)))
    }

    // The listing when a write failed.
    fn lost(self, amiss: Option<Amiss>) -> Listing
        ensures { result ≡ lost_by amiss self }
    {
        Listing {
            at: 0,
            more: false,
            amiss,
            ..self
        }
    }

    // Writes what stands in the output buffer to standard output; where that fails the listing ends, and no more is
    // written.
    pub fn flush(self, rt: &HostRuntime, out: &[u8]) -> Listing
        ensures { result ≡ written_by result.amiss self }
    {
        if self.is_lost() {
            return self.lost(self.amiss);
        }
        if self.at > out.len() {
            return self.moved(0);
        }
        match write_whole(rt, &out[..self.at]) {
            Ok(()) => self.moved(0),
            Err(error) => {
                let amiss = Amiss::Write(number_of(&error));
                say_failed(rt, amiss, error);
                self.lost(Some(amiss))
            }
        }
    }

    // Makes room for `want` bytes in the output buffer: writes what stands there where they do not fit behind it.
    pub fn make_room(self, rt: &HostRuntime, out: &[u8], want: usize) -> Listing
        ensures { result ≡ roomy_by result.amiss (length out.now) self want }
    {
        if text::fits(out, self.at, want) {
            return self;
        }
        self.flush(rt, out)
    }

    // Ends a listing, for what is amiss, unless something was before.
    pub fn stop(self, amiss: Option<Amiss>) -> Listing
        ensures { result ≡ stopped self amiss }
    {
        Listing {
            more: false,
            amiss: self.amiss.or(amiss),
            ..self
        }
    }

    // Ends a listing with the line of a fault at the first byte not used, where 48 bytes are free for it.
    pub fn fault(self, out: &mut [u8], number: u32) -> Listing
        ensures { (result ≡ faulted out.old self number) × (out.new ≡ fault_text out.old self number) }
    {
        let from = self.place(self.used);
        let at = text::put_fault(out, self.at, number, from);
        self.moved(at).stop(Some(Amiss::Fault(number, from)))
    }

    // Ends a listing at a refusal: with the line of a fault, unless every byte is used.
    pub fn end(self, out: &mut [u8], number: u32) -> Listing
        ensures { (result ≡ end_of out.old self number) × (out.new ≡ end_text out.old self number) }
    {
        if self.used >= self.have {
            return self.stop(None);
        }
        self.fault(out, number)
    }

    // Writes what is left of a listing, behind it the line of a read that failed, and says on standard error what is
    // amiss.
    pub fn close(self, rt: &HostRuntime, out: &mut [u8])
        ensures { out.new ≡ closed_text out.old self }
    {
        let last = self.put_last(rt, out);
        if let Some(amiss) = last.flush(rt, out).amiss {
            say(rt, amiss);
        }
    }

    // Puts what comes last: the line of a read that failed, if one did.
    fn put_last(self, rt: &HostRuntime, out: &mut [u8]) -> Listing
        ensures { out.new ≡ closed_text out.old self }
    {
        match self.amiss {
            Some(Amiss::Read(error)) => self.put_failed(rt, out, error),
            _ => self,
        }
    }

    // Puts the line of a read that failed.
    fn put_failed(self, rt: &HostRuntime, out: &mut [u8], error: u32) -> Listing
        ensures { out.new ≡ put_in 33 out.old (room_at (length out.old) self.at 33) (failed_line error) }
    {
        let r = self.make_room(rt, out, 33);
        let at = text::put_failed(out, r.at, error);
        r.moved(at)
    }
}

// Writes all of the bytes to standard output; the first write that fails, or takes nothing, ends it. std's `write_all`
// takes an interrupted write up again, which here has failed (docs/DECISIONS.md, 97).
fn write_whole(rt: &HostRuntime, bytes: &[u8]) -> io::Result<()> {
    let mut rest = bytes;
    while !rest.is_empty() {
        let taken = rt.stdout().write_some(rest)?;
        if taken == 0 {
            return Err(io::Error::from_raw_os_error(0));
        }
        rest = &rest[taken..];
    }
    Ok(())
}
