// What a program says on standard error: one line, where its listing is not whole.
use crate::Amiss;
use std::io::{Cursor, Write};
use std::{fmt, io};

// The words of docs/FORMATS.md, "Failures", with their numbers.
impl fmt::Display for Amiss {
    fn fmt<W: fmt::Write>(&self, f: &mut fmt::Formatter<W>) -> fmt::Result {
        match self {
            Amiss::Fault(number, place) => write!(f, "fault {number} {place}"),
            Amiss::Refused(number, place) => write!(f, "refused {number} {place}"),
            Amiss::Wrong(case, step) => write!(f, "wrong {case} {step}"),
            Amiss::Read(number) => write!(f, "failed read {number}"),
            Amiss::Write(number) => write!(f, "failed write {number}"),
        }
    }
}

// The system's number of an error, which is above 0; else 0.
pub(crate) fn number_of(error: &io::Error) -> u32 {
    error
        .raw_os_error()
        .and_then(|code| u32::try_from(code).ok())
        .unwrap_or(0)
}

// Says what failed, and what the system calls that: its words, in front of the number that it puts behind in brackets.
pub(crate) fn say_failed(rt: &HostRuntime, amiss: Amiss, error: io::Error) {
    let mut line = Cursor::new([0u8; 256]);
    let _ = write!(line, "{amiss}: {error}");
    let bracket = written(&line)
        .windows(2)
        .rposition(|pair| pair == b" (".as_slice());
    if let Some(end) = bracket {
        line.set_position(end as u64);
    }
    complain(rt, line);
}

// Says what is amiss with a listing; of a read or a write that failed it was said when it failed.
pub(crate) fn say(rt: &HostRuntime, amiss: Amiss) {
    if matches!(amiss, Amiss::Read(_) | Amiss::Write(_)) {
        return;
    }
    let mut line = Cursor::new([0u8; 256]);
    let _ = write!(line, "{amiss}");
    complain(rt, line);
}

// Ends a line, and writes it to standard error; what cannot be written there can be said nowhere.
fn complain(rt: &HostRuntime, mut line: Cursor<[u8; 256]>) {
    let _ = writeln!(line);
    let _ = rt.stderr().write_all(written(&line));
}

// The bytes of a line so far.
fn written(line: &Cursor<[u8; 256]>) -> &[u8] {
    let many = line.position() as usize;
    &line.get_ref()[..many.min(256)]
}
