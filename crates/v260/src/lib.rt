#![tactic(auto)]

// The V260: sixteen scales of 24 bits, each of which may be joined to the one before it.
ghost use Rattle.std.specs.Prelude.{◌≡◌, refl};
ghost use Rattle.v260.specs.Outcomes.{fits, start_of};
ghost use Rattle.v260.specs.Module.{v260};

use bus::interrupter::Interrupter;
use bus::table::Directions::{Read, ReadWrite, Write};
use bus::table::Row;
use bus::table::Widths::{D16, D16D32};
use bus::{Access, Refusal};
use count::Width;
use scaler::channel::Channel;
use scaler::module::Scaler;
use scaler::{Register, Scales};
pub use scaler::{by_value, in_place};

mod counting;
mod registers;

// What a call gives: the answer, the module and the interrupter after it.
pub type Outcome = scaler::module::Outcome<V260>;

// What a call gives that was lent the interrupter: the answer and the module after it.
pub type Lent = scaler::module::Lent<V260>;

// Table 4.1 of source document 001, from the top.
const TABLE: [Row<Register>; 12] = [
    Row(0x58, 0x58, D16, Read, Register::Status),
    Row(0x56, 0x56, D16, ReadWrite, Register::ScaleIncrease),
    Row(0x54, 0x54, D16, ReadWrite, Register::VetoReset),
    Row(0x52, 0x52, D16, ReadWrite, Register::VetoSet),
    Row(0x50, 0x50, D16, ReadWrite, Register::ClearAccess),
    Row(0x10, 0x4C, D16D32, Read, Register::ScaleCounters),
    Row(0x12, 0x4E, D16, Read, Register::LowerHalves),
    Row(0x0C, 0x0C, D16, ReadWrite, Register::ClearInterrupt),
    Row(0x0A, 0x0A, D16, ReadWrite, Register::DisableInterrupt),
    Row(0x08, 0x08, D16, ReadWrite, Register::EnableInterrupt),
    Row(0x06, 0x06, D16, Read, Register::LevelRegister),
    Row(0x04, 0x04, D16, Write, Register::VectorRegister),
];

// The switches: the channels that are joined to the one before, those that may request, and whether the jumpers JP18
// (channels 0 to 7) and JP17 (8 to 15) are inserted.
#[derive(Clone, Copy, PartialEq, Eq, Debug)]
pub struct Switches {
    pub joined: u16,
    pub interrupts: u16,
    pub jp18: bool,
    pub jp17: bool,
}

// The scales and the switches.
#[derive(Clone, Copy, PartialEq, Eq, Debug)]
pub struct V260 {
    pub scales: Scales,
    pub switches: Switches,
}

impl Scaler for V260 {
    ghost own = { v260 };

    fn scales(self) -> Scales {
        self.scales
    }

    fn scaled(self, scales: Scales) -> Self {
        V260 { scales, ..self }
    }

    fn table() -> &'static [Row<Register>] {
        &TABLE
    }

    fn register(self, i: Interrupter, register: Register, channel: Channel, a: Access) -> Outcome {
        if !self.is_formed(i) {
            return Outcome::refused(Refusal::Malformed, self, i);
        }
        registers::perform(register, channel, self, i, a)
    }

    fn is_formed(self, i: Interrupter) -> bool {
        i.is_well_formed() && counts_fit(self.scales.counts)
    }

    fn is_unjoined(self) -> bool {
        self.switches.joined == 0
    }

    fn width() -> Width {
        Width::Bits24
    }

    fn is_ignored(self, channel: Channel) -> bool {
        self.switches.is_joined(channel)
    }

    fn counts_after(self, channel: Channel) -> [u32; 16] {
        self.switches.counts_after(self.scales.counts, channel)
    }

    fn watched(self, channel: Channel) -> Option<u32> {
        self.switches.watched(channel)
    }

    ghost sixteen_places = { refl };
}

// A module that is switched on, with its switches and the level of its dip switches.
pub fn start(switches: Switches, level: u32) -> Outcome
    ensures { result ≡ start_of switches level }
{
    let state = V260 {
        scales: Scales::power_on(),
        switches,
    };
    if level > 7 {
        return Outcome::refused(Refusal::Malformed, state, Interrupter::power_on(8));
    }
    Outcome::done(0, state, Interrupter::power_on(level))
}

// Whether every count is within its 24 bits.
fn counts_fit(counts: [u32; 16]) -> bool
    ensures { result ≡ fits counts }
{
    counts.iter().all(|count| *count < 0x0100_0000)
}
