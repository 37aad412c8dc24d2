// What an access does to each register of the table.
ghost use Rattle.std.specs.Prelude.{◌≡◌, true};
ghost use Rattle.scaler.specs.Calls.{obey, lower_at, performed};

use crate::channel::Channel;
use crate::counting::test_pulse;
use crate::module::{Outcome, Scaler};
use crate::{Order, Register};
use bus::Access;
use bus::interrupter::Interrupter;

// What a command address, a line or the button does.
pub(crate) fn obeyed<M: Scaler>(order: Order, s: M, i: Interrupter) -> Outcome<M>
    ensures { result ≡ obey M.own order s i }
{
    let now = crate::obey(order, s.scales(), i);
    let state = s.scaled(now.scales);
    Outcome::done(0, state, now.interrupter)
}

// An access of a register and a place in it, which is a channel's.
pub(crate) fn perform<M: Scaler>(
    register: Register,
    channel: Channel,
    s: M,
    i: Interrupter,
    a: Access,
) -> Outcome<M>
    requires formed { M.own.formed s i ≡ true }
    ensures { result ≡ performed M.own register channel.number s i a }
{
    match register {
        Register::ScaleIncrease => test_pulse(s, i),
        Register::VetoReset => obeyed(Order::VetoReset, s, i),
        Register::VetoSet => obeyed(Order::VetoSet, s, i),
        Register::ClearAccess => obeyed(Order::ClearAccess, s, i),
        Register::LowerHalves => lower_half(channel, s, i),
        Register::ClearInterrupt => obeyed(Order::RemoveRequest, s, i),
        Register::DisableInterrupt => obeyed(Order::Disable, s, i),
        Register::EnableInterrupt => obeyed(Order::Enable, s, i),
        Register::Status
        | Register::ScaleCounters
        | Register::RequestRegister
        | Register::LevelRegister
        | Register::VectorRegister => s.register(i, register, channel, a),
    }
}

// The lower half of a counter.
fn lower_half<M: Scaler>(channel: Channel, s: M, i: Interrupter) -> Outcome<M>
    ensures { result ≡ lower_at M.own channel.number s i }
{
    Outcome::done(s.scales().latches[channel.number] % 65536, s, i)
}
