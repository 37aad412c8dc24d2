// An entry of the bench log: its kind, then its arguments, each looked at as soon as it is read.
ghost use Rattle.std.specs.Prelude.{◌≡◌};
ghost use Rattle.benchlog.specs.Entries.{argument_at, width_at, data_limit, read_to, veto_at, pulse_at, read_at, write_at, kind_at, entry_at};

use crate::numbers::read_number;
use crate::{Entry, Fault, Numeral, Reading, Refused};

// Inside an entry only the fault is kept: the place is the entry's.
impl From<Refused> for Fault {
    ghost from_gives = { λ refused fault. fault ≡ refused.fault };

    fn from(refused: Refused) -> Fault {
        refused.fault
    }
}

// An argument of 0 to `most`, at a place.
#[tactic(auto, unfolding(crate::specs::Entries::argument_at))]
pub fn read_argument(log: &[u8], at: usize, most: u32) -> Result<Numeral, Refused>
    ensures { result ≡ argument_at log.now at most }
{
    let argument = read_number(log, at)?;
    if argument.value > most {
        return Err(Fault::OutOfRange.at(at));
    }
    Ok(argument)
}

// A width: 16 or 32. Set in where it is called, without which a replay takes a tenth more instructions.
#[inline]
#[tactic(auto, unfolding(crate::specs::Entries::width_at))]
fn width(log: &[u8], at: usize) -> Result<Numeral, Refused>
    ensures { result ≡ width_at log.now at }
{
    let width = read_number(log, at)?;
    if width.value != 16 && width.value != 32 {
        return Err(Fault::OutOfRange.at(at));
    }
    Ok(width)
}

// The largest data of a width.
fn data_limit(width: u32) -> u32
    ensures { result ≡ data_limit width }
{
    if width == 16 { 65535 } else { 4294967295 }
}

// An entry that is read, and ends before `next`.
fn read_to(entry: Entry, next: usize) -> Result<Reading, Fault>
    ensures { result ≡ read_to entry next }
{
    Ok(Reading { entry, next })
}

// The arguments of a pulse, from `p` on.
#[tactic(auto, unfolding(crate::specs::Entries::pulse_at))]
fn pulse(log: &[u8], p: usize) -> Result<Reading, Fault>
    ensures { result ≡ pulse_at log.now p }
{
    let channel = read_argument(log, p, 31)?;
    let n = read_number(log, channel.next)?;
    read_to(Entry::Pulse(channel.value, n.value), n.next)
}

// The argument of a veto line.
#[tactic(auto, unfolding(crate::specs::Entries::veto_at))]
fn veto(log: &[u8], p: usize) -> Result<Reading, Fault>
    ensures { result ≡ veto_at log.now p }
{
    let line = read_argument(log, p, 1)?;
    read_to(Entry::Veto(line.value == 1), line.next)
}

// The arguments of a read.
#[tactic(auto, unfolding(crate::specs::Entries::read_at))]
fn read(log: &[u8], p: usize) -> Result<Reading, Fault>
    ensures { result ≡ read_at log.now p }
{
    let offset = read_argument(log, p, 65535)?;
    let bits = width(log, offset.next)?;
    read_to(Entry::Read(offset.value, bits.value), bits.next)
}

// The arguments of a write.
#[tactic(auto, unfolding(crate::specs::Entries::write_at))]
fn write(log: &[u8], p: usize) -> Result<Reading, Fault>
    ensures { result ≡ write_at log.now p }
{
    let offset = read_argument(log, p, 65535)?;
    let bits = width(log, offset.next)?;
    let data = read_argument(log, bits.next, data_limit(bits.value))?;
    read_to(
        Entry::Write(offset.value, bits.value, data.value),
        data.next,
    )
}

// What follows a kind that ends before `p`.
#[tactic(auto, unfolding(crate::specs::Entries::kind_at))]
fn of_kind(log: &[u8], kind: u32, p: usize) -> Result<Reading, Fault>
    ensures { result ≡ kind_at log.now kind p }
{
    match kind {
        0 => pulse(log, p),
        1 => veto(log, p),
        2 => read_to(Entry::Test, p),
        3 => read_to(Entry::Clear, p),
        4 => read_to(Entry::Trigger, p),
        5 => read(log, p),
        6 => write(log, p),
        7 => read_to(Entry::ManClr, p),
        _ => Err(Fault::NoSuchKind),
    }
}

// The entry at a place: its kind, and what follows it.
#[tactic(auto, unfolding(crate::specs::Entries::entry_at))]
pub fn read_entry(log: &[u8], at: usize) -> Result<Reading, Refused>
    ensures { result ≡ entry_at log.now at }
{
    let kind = read_number(log, at)?;
    of_kind(log, kind.value, kind.next).map_err(|fault| fault.at(at))
}
