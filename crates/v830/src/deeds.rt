// What a call is to do, its deed: lines and registers that do the same have one name, so that each is done in one
// place.
ghost use Rattle.std.specs.Prelude.{◌≡◌};
ghost use Rattle.v830.specs.Trigger.{code_of};
ghost use Rattle.v830.specs.Deeds.{deed_at, deed_of_access, deed_of};

use crate::{Call, Register, TABLE};
use bus::{Access, Refusal};

// Who clears or triggers: the front line, or the register.
#[derive(Clone, Copy, PartialEq, Eq, Debug)]
pub enum Source {
    Line,
    Register,
}

impl Source {
    // The code of a trigger's source: by the line it is external, by the register a VME request.
    pub(crate) fn code(self) -> u32
        ensures { result ≡ code_of self }
    {
        match self {
            Source::Line => 1,
            Source::Register => 0,
        }
    }
}

// What a call is to do.
#[derive(Clone, Copy, PartialEq, Eq, Debug)]
pub enum Deed {
    Refuse(Refusal),
    Pulses(u32, u32),
    Veto(bool),
    Test,
    Clear(Source),
    Trigger(Source),
    HandOut,
    ReadCounter(u32),
    ReadEnable,
    WriteEnable(u32),
    ReadControl,
    WriteControl(u32),
    SetBits(u32),
    ClearBits(u32),
    Reset,
    ReadTriggers,
    ReadEvents,
}

// The deed of an access that reaches a register and a place in it.
fn of_row(register: Register, place: u32, a: Access) -> Deed
    ensures { result ≡ deed_at register place a }
{
    match register {
        Register::MebWindow => Deed::HandOut,
        Register::Counters => Deed::ReadCounter(place),
        Register::ChannelEnable if a.write => Deed::WriteEnable(a.data),
        Register::ChannelEnable => Deed::ReadEnable,
        Register::Control if a.write => Deed::WriteControl(a.data),
        Register::Control => Deed::ReadControl,
        Register::ControlBitSet => Deed::SetBits(a.data),
        Register::ControlBitClear => Deed::ClearBits(a.data),
        Register::SoftwareReset => Deed::Reset,
        Register::SoftwareClear => Deed::Clear(Source::Register),
        Register::SoftwareTrigger => Deed::Trigger(Source::Register),
        Register::TriggerCounter => Deed::ReadTriggers,
        Register::MebEventNumber => Deed::ReadEvents,
    }
}

// The deed of an access, by the table.
fn of_access(a: Access) -> Deed
    ensures { result ≡ deed_of_access a }
{
    match bus::table::look_up(&TABLE, a) {
        Ok(to) => of_row(to.register, to.place, a),
        Err(why) => Deed::Refuse(why),
    }
}

// The deed of a call; MAN CLR is a button that the module has not.
pub(crate) fn of_call(call: Call) -> Deed
    ensures { result ≡ deed_of call }
{
    match call {
        Call::Pulses(channel, n) => Deed::Pulses(channel, n),
        Call::VetoLine(on) => Deed::Veto(on),
        Call::Test => Deed::Test,
        Call::ClearLine => Deed::Clear(Source::Line),
        Call::TriggerLine => Deed::Trigger(Source::Line),
        Call::Access(a) => of_access(a),
        Call::ManClr => Deed::Refuse(Refusal::NoMeaning),
    }
}
