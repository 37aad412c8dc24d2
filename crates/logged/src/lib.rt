#![tactic(auto)]

// What an entry of the bench log asks of a V830, and the access that it makes of any module.
ghost use Rattle.std.specs.Prelude.{◌≡◌};
ghost use Rattle.logged.specs.Entries.{access_for, call830_of};

use benchlog::Entry;
use bus::Access;
use v830::Call;

// The access of an entry; a read has no data.
pub fn access_for(write: bool, offset: u32, width: u32, data: u32) -> Access
    ensures { result ≡ access_for write offset width «data» }
{
    Access {
        offset,
        width,
        write,
        data,
    }
}

// The call of a V830 that an entry of the log makes.
pub fn call_830_of(entry: Entry) -> Call
    ensures { result ≡ call830_of entry }
{
    match entry {
        Entry::Pulse(channel, n) => Call::Pulses(channel, n),
        Entry::Veto(on) => Call::VetoLine(on),
        Entry::Test => Call::Test,
        Entry::Clear => Call::ClearLine,
        Entry::Trigger => Call::TriggerLine,
        Entry::Read(offset, width) => Call::Access(access_for(false, offset, width, 0)),
        Entry::Write(offset, width, data) => Call::Access(access_for(true, offset, width, data)),
        Entry::ManClr => Call::ManClr,
    }
}
