#![tactic(auto)]

// The V560: sixteen scales of 32 bits, in eight sections of two that may be joined to one scale of 64 bits.
ghost use Rattle.std.specs.Prelude.{◌≡◌, refl};
ghost use Rattle.v560.specs.Outcomes.{started};
ghost use Rattle.v560.specs.Module.{v560};

use bus::interrupter::Interrupter;
use bus::table::Directions::{Read, ReadWrite};
use bus::table::Row;
use bus::table::Widths::{D16, D16D32};
use bus::{Access, Refusal};
use count::Width;
use scaler::channel::Channel;
use scaler::module::Scaler;
use scaler::{Register, Scales};
pub use scaler::{by_value, in_place};

mod counting;
mod registers;

// What a call gives: the answer, the module and the interrupter after it.
pub type Outcome = scaler::module::Outcome<V560>;

// What a call gives that was lent the interrupter: the answer and the module after it.
pub type Lent = scaler::module::Lent<V560>;

// Table 4.1 of source document 000, from the top.
const TABLE: [Row<Register>; 13] = [
    Row(0x58, 0x58, D16, Read, Register::Status),
    Row(0x56, 0x56, D16, ReadWrite, Register::ScaleIncrease),
    Row(0x54, 0x54, D16, ReadWrite, Register::VetoReset),
    Row(0x52, 0x52, D16, ReadWrite, Register::VetoSet),
    Row(0x50, 0x50, D16, ReadWrite, Register::ClearAccess),
    Row(0x10, 0x4C, D16D32, Read, Register::ScaleCounters),
    Row(0x12, 0x4E, D16, Read, Register::LowerHalves),
    Row(0x0E, 0x0E, D16, ReadWrite, Register::RequestRegister),
    Row(0x0C, 0x0C, D16, ReadWrite, Register::ClearInterrupt),
    Row(0x0A, 0x0A, D16, ReadWrite, Register::DisableInterrupt),
    Row(0x08, 0x08, D16, ReadWrite, Register::EnableInterrupt),
    Row(0x06, 0x06, D16, ReadWrite, Register::LevelRegister),
    Row(0x04, 0x04, D16, ReadWrite, Register::VectorRegister),
];

// The scales, the joined sections, the sections that may request, and the veto latch.
#[derive(Clone, Copy, PartialEq, Eq, Debug)]
pub struct V560 {
    pub scales: Scales,
    pub joined: u8,
    pub sections: u8,
    pub latch: bool,
}

impl Scaler for V560 {
    ghost own = { v560 };

    fn scales(self) -> Scales {
        self.scales
    }

    fn scaled(self, scales: Scales) -> Self {
        V560 { scales, ..self }
    }

    fn table() -> &'static [Row<Register>] {
        &TABLE
    }

    fn register(self, i: Interrupter, register: Register, channel: Channel, a: Access) -> Outcome {
        if !self.is_formed(i) {
            return Outcome::refused(Refusal::Malformed, self, i);
        }
        registers::perform(register, channel, self, i, a)
    }

    fn is_formed(self, i: Interrupter) -> bool {
        i.is_well_formed()
    }

    fn is_unjoined(self) -> bool {
        self.joined == 0
    }

    fn width() -> Width {
        Width::Bits32
    }

    fn is_ignored(self, channel: Channel) -> bool {
        counting::is_high(self.joined, channel)
    }

    fn counts_after(self, channel: Channel) -> [u32; 16] {
        counting::counts_after(self.joined, self.scales.counts, channel)
    }

    fn watched(self, channel: Channel) -> Option<u32> {
        counting::is_watched(self.joined, self.sections, channel).then_some(31)
    }

    ghost sixteen_places = { refl };
}

// A module that is switched on, with the changeover switches of its sections.
pub fn start(joined: u8) -> Outcome
    ensures { result ≡ started joined }
{
    let state = V560 {
        scales: Scales::power_on(),
        joined,
        sections: 0,
        latch: true,
    };
    Outcome::done(0, state, Interrupter::power_on(0))
}
