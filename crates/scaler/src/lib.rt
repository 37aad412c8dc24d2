#![tactic(auto)]

// What the V260 and the V560 have in common: sixteen scales with their latches, the two vetoes, and what each order
// does to them and to the interrupter beside them.
ghost use Rattle.std.specs.Prelude.{◌≡◌};
ghost use Rattle.scaler.specs.Orders.{fresh, inhibited, zeroed, vetoed, lined, both, obeyed};

use bus::Access;
use bus::interrupter::Interrupter;

pub mod by_value;
pub mod channel;
mod counting;
pub mod in_place;
pub mod module;
mod registers;

// Sixteen counts, the lower-half latch of each, the front veto line and the VME veto.
#[derive(Clone, Copy, PartialEq, Eq, Debug)]
pub struct Scales {
    pub counts: [u32; 16],
    pub latches: [u32; 16],
    pub line: bool,
    pub vme: bool,
}

// What a command address, a line or the button does, alike in both modules.
#[derive(Clone, Copy, PartialEq, Eq, Debug)]
pub enum Order {
    ClearAccess,
    VetoSet,
    VetoReset,
    Enable,
    Disable,
    RemoveRequest,
    ClearLine,
    VetoLine(bool),
    ManClr,
}

// The registers of the V260 and the V560, in the order of table 4.1 of source documents 000 and 001.
#[derive(Clone, Copy, PartialEq, Eq, Debug)]
pub enum Register {
    Status,
    ScaleIncrease,
    VetoReset,
    VetoSet,
    ClearAccess,
    ScaleCounters,
    LowerHalves,
    RequestRegister,
    ClearInterrupt,
    DisableInterrupt,
    EnableInterrupt,
    LevelRegister,
    VectorRegister,
}

// The scales and the interrupter after an order.
#[derive(Clone, Copy, PartialEq, Eq, Debug)]
pub struct Obeyed {
    pub scales: Scales,
    pub interrupter: Interrupter,
}

// A call of either module: pulses (channel, how many), the front veto line, TEST, the CLEAR line, a trigger, for which
// neither has an input, an access, and MAN CLR.
#[derive(Clone, Copy, PartialEq, Eq, Debug)]
pub enum Call {
    Pulses(u32, u32),
    VetoLine(bool),
    Test,
    ClearLine,
    Trigger,
    Access(Access),
    ManClr,
}

impl Scales {
    // As they are at power-on.
    pub fn power_on() -> Self
        ensures { result ≡ fresh }
    {
        Scales {
            counts: [0; 16],
            latches: [0; 16],
            line: false,
            vme: false,
        }
    }

    // Whether they may not count.
    pub fn is_inhibited(self) -> bool
        ensures { result ≡ inhibited self }
    {
        self.line || self.vme
    }

    // Zeroed.
    fn zeroed(mut self) -> Self
        ensures { result ≡ zeroed self }
    {
        self.counts = [0; 16];
        self
    }

    // The VME veto set or reset.
    fn vetoed(self, on: bool) -> Self
        ensures { result ≡ vetoed on self }
    {
        Scales { vme: on, ..self }
    }

    // The front veto line on or off.
    fn lined(self, on: bool) -> Self
        ensures { result ≡ lined on self }
    {
        Scales { line: on, ..self }
    }
}

// Does what an order says.
pub fn obey(order: Order, scales: Scales, interrupter: Interrupter) -> Obeyed
    ensures { result ≡ obeyed order scales interrupter }
{
    let i = interrupter;
    match order {
        Order::ClearAccess => both(scales.zeroed(), i.cleared()),
        Order::VetoSet => both(scales.vetoed(true), i),
        Order::VetoReset => both(scales.vetoed(false), i),
        Order::Enable => both(scales, i.generating(true)),
        Order::Disable => both(scales, i.generating(false)),
        Order::RemoveRequest => both(scales, i.released()),
        Order::ClearLine => both(scales.zeroed(), i),
        Order::VetoLine(on) => both(scales.lined(on), i),
        Order::ManClr => both(scales.zeroed().vetoed(false), i.cleared()),
    }
}

// Scales and interrupter, side by side.
fn both(scales: Scales, interrupter: Interrupter) -> Obeyed
    ensures { result ≡ both scales interrupter }
{
    Obeyed {
        scales,
        interrupter,
    }
}
