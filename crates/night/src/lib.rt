#![tactic(auto)]

// A night on a V830: what the entries of a bench log make of it, and their listing.
ghost use Rattle.std.specs.Prelude.{◌≡◌, ◌+◌, ◌≤◌, true, not, ◌&&◌, [], length, ◌==◌};
ghost use Rattle.benchlog.specs.declared.Fault.TheVariants.{Ends};
ghost use Rattle.benchlog.specs.Faults.{fault_number};
ghost use Rattle.text.specs.Text.{put};
ghost use Rattle.meb.specs.Ring.{lent};
ghost use Rattle.text.specs.Text.{after};
ghost use Rattle.v830.specs.State.{formed};
ghost use Rattle.night.specs.Lines.{heading, text, begun_at, stepped, taken_of};
ghost use Rattle.night.specs.Runs.{replay_for, run_for, part_of, part_behind, stopped_at};

mod tally;

use crate::tally::Tally;
use benchlog::{Entry, Fault, Reading};
use bus::Refusal;
use v830::V830;

// Where a replay stands: the module, the entries taken, and the log's place of the next byte.
#[derive(Clone, Copy, PartialEq, Eq, Debug)]
pub struct Night {
    pub v830: V830,
    pub entries: u64,
    pub place: u64,
}

// An entry taken: the night after it, and the three numbers of its line.
#[derive(Clone, Copy, PartialEq, Eq, Debug)]
pub struct Taken {
    pub night: Night,
    pub entry: u64,
    pub answer: u32,
    pub value: u32,
}

// What comes next in a listing: further lines, or bytes of the log first; nothing, at the log's end or behind the line
// of a fault, with its number; or why nothing of it is run.
#[derive(Clone, Copy, PartialEq, Eq, Debug)]
pub enum Next {
    Lines,
    Bytes,
    Nothing,
    Faulted(u32),
    Refused(Refusal),
}

// A part of a listing: the night after it, the bytes used of the log, those put out, and what is next.
#[derive(Clone, Copy, PartialEq, Eq, Debug)]
pub struct Part {
    pub night: Night,
    pub used: usize,
    pub at: usize,
    pub next: Next,
}

// A night that begins, on a fresh module that is lent the memory.
pub fn begin(memory: &[u32]) -> Night
    ensures { result ≡ begun_at (lent memory.now) }
{
    Night {
        v830: v830::start(0, memory).state,
        entries: 0,
        place: 0,
    }
}

// Puts the first line of a listing, where it fits, and answers the place after it.
pub fn put_heading(out: &mut [u8], at: usize) -> usize
    ensures { (result ≡ after out.old at heading) × (out.new ≡ put out.old at heading) }
{
    text::put_text(out, at, b"entry answer value\n")
}

// Takes one entry, of so many bytes: one step of the module, and the line's three numbers.
fn take(night: Night, memory: &mut [u32], entry: Entry, bytes: usize) -> Taken
    requires { (formed night.v830 ≡ true) × (length memory.old ≡ night.v830.store.capacity.0) }
    ensures { (result ≡ taken_of night (lent memory.old) entry bytes) × (memory.new ≡ (stepped night (lent memory.old) entry).memory.words) }
{
    let o = v830::step_formed(night.v830, memory, logged::call_830_of(entry));
    let reply = bus::numbered(o.answer);
    let entries = night.entries.wrapping_add(1);
    Taken {
        night: Night {
            v830: o.state,
            entries,
            place: night.place.wrapping_add(bytes as u64),
        },
        entry: entries,
        answer: reply.number,
        value: reply.value,
    }
}

// Replays what is at hand of a log, `last` where nothing follows it: as many lines as surely fit the buffer. 12 and
// 10 are asked once, here.
pub fn replay(night: Night, memory: &mut [u32], log: &[u8], last: bool, out: &mut [u8]) -> Part
    ensures { (result ≡ part_of (replay_for out.old last log.now night (lent memory.old))) × (memory.new ≡ (replay_for out.old last log.now night (lent memory.old)).memory.words) × (out.new ≡ put out.old 0 (text (replay_for out.old last log.now night (lent memory.old)).lines)) }
{
    match v830::gate(night.v830, memory) {
        Ok(_) => run(night, memory, log, last, out),
        Err(why) => here(night, 0, 0, Next::Refused(why)),
    }
}

// The same of a night whose module is not malformed and has its memory, which each entry leaves so.
fn run(night: Night, memory: &mut [u32], log: &[u8], last: bool, out: &mut [u8]) -> Part
    requires { (formed night.v830 ≡ true) × (length memory.old ≡ night.v830.store.capacity.0) }
    ensures { (result ≡ part_of (run_for out.old last log.now night (lent memory.old))) × (memory.new ≡ (run_for out.old last log.now night (lent memory.old)).memory.words) × (out.new ≡ put out.old 0 (text (run_for out.old last log.now night (lent memory.old)).lines)) }
{
    let mut now = night;
    let mut used: usize = 0;
    let mut at: usize = 0;
    let mut number = Tally::counted_to(night.entries);
    for _ in 0..out.len() / 63 {
        match benchlog::read_entry(&log[used..], 0) {
            Err(refused) => {
                return stop(now, &log[used..], last, refused.fault, used, out, at);
            }
            Ok(Reading { entry, next }) => {
                let taken = take(now, memory, entry, next);
                now = taken.night;
                number = number.counted_up();
                at = number.put_entry(out, at, taken.answer, taken.value);
                used += next;
            }
        }
    }
    here(now, used, at, Next::Lines)
}

// No entry can be read of the rest: more bytes are wanted, or the log is at its end, or a fault ends it.
fn stop(
    night: Night,
    rest: &[u8],
    last: bool,
    fault: Fault,
    used: usize,
    out: &mut [u8],
    at: usize,
) -> Part
    requires { at + 63 ≤ length out.old }
    ensures { (result ≡ part_behind used at (stopped_at last rest.now fault night (lent []))) × (out.new ≡ put out.old at (text (stopped_at last rest.now fault night (lent [])).lines)) }
{
    if wants_bytes(last, fault) {
        return here(night, used, at, Next::Bytes);
    }
    if rest.len() == 0 {
        return here(night, used, at, Next::Nothing);
    }
    let number = fault.number();
    let end = text::put_fault(out, at, number, night.place);
    here(night, used, end, Next::Faulted(number))
}

// Whether an entry cannot be read only since the bytes at hand end before it does.
fn wants_bytes(last: bool, fault: Fault) -> bool
    ensures { result ≡ not last && (fault_number fault == fault_number Ends) }
{
    !last && fault == Fault::Ends
}

// A part that ends here.
fn here(night: Night, used: usize, at: usize, next: Next) -> Part
    ensures { result ≡ record { night = night; used = used; at = at; next = next } }
{
    Part {
        night,
        used,
        at,
        next,
    }
}
