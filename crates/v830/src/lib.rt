#![tactic(auto)]

// The V830: 32 counters of 32 bits, and events in a memory that is lent to it.
ghost use Rattle.std.specs.Prelude.{◌≡◌, length};
ghost use Rattle.meb.specs.Ring.{lent};
ghost use Rattle.v830.specs.Outcomes.{refused, done, started};

use bus::table::Directions::{Read, ReadWrite, Write};
use bus::table::Row;
use bus::table::Widths::{D16, D32};
use bus::{Access, Answer, Refusal};
use meb::Store;

mod calls;
mod counting;
mod deeds;
mod registers;
mod state;
mod trigger;

pub use calls::{gate, step, step_formed};

// The registers of section 3.1 of source document 002 that document 01 lists.
#[derive(Clone, Copy, PartialEq, Eq, Debug)]
pub(crate) enum Register {
    MebWindow,
    Counters,
    ChannelEnable,
    Control,
    ControlBitSet,
    ControlBitClear,
    SoftwareReset,
    SoftwareClear,
    SoftwareTrigger,
    TriggerCounter,
    MebEventNumber,
}

// Section 3.1 of source document 002, those of its registers that document 01 lists.
const TABLE: [Row<Register>; 11] = [
    Row(0x0000, 0x0FFC, D32, Read, Register::MebWindow),
    Row(0x1000, 0x107C, D32, Read, Register::Counters),
    Row(0x1100, 0x1100, D32, ReadWrite, Register::ChannelEnable),
    Row(0x1108, 0x1108, D16, ReadWrite, Register::Control),
    Row(0x110A, 0x110A, D16, Write, Register::ControlBitSet),
    Row(0x110C, 0x110C, D16, Write, Register::ControlBitClear),
    Row(0x1120, 0x1120, D16, Write, Register::SoftwareReset),
    Row(0x1122, 0x1122, D16, Write, Register::SoftwareClear),
    Row(0x1124, 0x1124, D16, Write, Register::SoftwareTrigger),
    Row(0x1128, 0x1128, D32, Read, Register::TriggerCounter),
    Row(0x1134, 0x1134, D16, Read, Register::MebEventNumber),
];

// What is only counted up: the accepted triggers, in the Trigger Counter.
#[derive(Clone, Copy, PartialEq, Eq, Debug)]
pub struct Tallies {
    pub triggers: u32,
}

// The counters, Channel Enable, GEO, the event memory, the tallies, Control and the VETO line.
#[derive(Clone, Copy, PartialEq, Eq, Debug)]
pub struct V830 {
    pub counts: [u32; 32],
    pub enable: u32,
    pub geo: u32,
    pub store: Store,
    pub tallies: Tallies,
    pub control: u8,
    pub veto: bool,
}

// What a call gives: the answer, and the module after it.
#[derive(Clone, Copy, PartialEq, Eq, Debug)]
pub struct Outcome {
    pub answer: Answer,
    pub state: V830,
}

// Any call of the module, as the bench log names them.
#[derive(Clone, Copy, PartialEq, Eq, Debug)]
pub enum Call {
    Pulses(u32, u32),
    VetoLine(bool),
    Test,
    ClearLine,
    TriggerLine,
    Access(Access),
    ManClr,
}

// A module that is switched on, with its GEO and the memory lent to it.
pub fn start(geo: u32, memory: &[u32]) -> Outcome
    ensures { result ≡ started geo (lent memory.now) }
{
    if geo > 31 {
        return V830::power_on(0, 0, 0).refused(Refusal::Malformed);
    }
    if memory.len() == 0 || memory.len() > 32768 {
        return V830::power_on(0, 0, 0).refused(Refusal::WrongMemory);
    }
    V830::power_on(0, geo, memory.len() as u32).done(0)
}

impl V830 {
    // A call that is refused: all stays as it was.
    fn refused(self, why: Refusal) -> Outcome
        ensures { result ≡ refused why self }
    {
        Outcome {
            answer: Err(why),
            state: self,
        }
    }

    // A call that is done, with the value read.
    fn done(self, value: u32) -> Outcome
        ensures { result ≡ done value self }
    {
        Outcome {
            answer: Ok(value),
            state: self,
        }
    }
}
