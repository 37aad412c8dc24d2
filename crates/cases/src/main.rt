#![tactic(auto)]

// Runs the marked cases of document 01 on the compiled modules, and prints a line a case.
use benchlog::Entry;
use bus::Reply;
use marked::marked;
use modules::Which;
use running::wrong_in;
use stdio::{Amiss, Listing};

mod marked;
mod running;

// A step: an entry of the log for the module, or bytes that begin with a number for the log reader.
#[derive(Clone, Copy)]
pub(crate) enum Step {
    Gives(Entry),
    Reads([u8; 5]),
}

// A step, with the number and the value of the answer that is expected.
#[derive(Clone, Copy)]
pub(crate) struct Line {
    pub(crate) step: Step,
    pub(crate) expected: Reply,
}

// A case: its line in document 01, the module, the first values of its start, the steps, and the pulses admitted.
#[derive(Clone, Copy)]
pub(crate) struct Case {
    pub(crate) line: u32,
    pub(crate) which: Which,
    pub(crate) start: &'static [u32],
    pub(crate) lines: &'static [Line],
    pub(crate) pulses: u32,
}

// Puts the line of a case, 0 in it where no step is wrong; one that is wrong is what is amiss with the listing.
fn put_case(rt: &HostRuntime, out: &mut [u8], before: Listing, number: usize, c: Case) -> Listing {
    let case = number as u64;
    let wrong = wrong_in(c).map(|step| step as u64);
    let numbers = [
        case,
        u64::from(c.line),
        c.lines.len() as u64,
        wrong.unwrap_or(0),
    ];
    let mut l = before.make_room(rt, out, 84);
    l.at = text::put_line(out, l.at, &numbers);
    match wrong {
        Some(step) => l.stop(Some(Amiss::Wrong(case, step))),
        None => l,
    }
}

// The whole listing.
fn run(rt: &HostRuntime, out: &mut [u8]) {
    let mut l = Listing::begin(text::put_text(out, 0, b"case line steps wrong\n"));
    for (k, c) in marked().iter().enumerate() {
        l = put_case(rt, out, l, k + 1, *c);
    }
    l.close(rt, out);
}

// The buffer of the lines.
fn main(rt: HostRuntime) {
    let mut out = [0u8; 1024];
    run(&rt, &mut out);
}
