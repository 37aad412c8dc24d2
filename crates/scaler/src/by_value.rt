// The calls of a module, it and its interrupter given and handed back by value.
ghost use Rattle.std.specs.Prelude.{◌≡◌};
ghost use Rattle.scaler.specs.declared.Order.TheVariants as order;
ghost use Rattle.scaler.specs.Calls.{access_of, pulses_of, test_of, order_of, trigger_of, step_of};

use crate::channel::Channel;
use crate::counting::{pulse_often, test_pulse};
use crate::module::{Outcome, Scaler};
use crate::registers::{obeyed, perform};
use crate::{Call, Order};
use bus::interrupter::Interrupter;
use bus::table::look_up;
use bus::{Access, Refusal};

// An access by VME.
pub fn access<M: Scaler>(s: M, i: Interrupter, a: Access) -> Outcome<M>
    ensures { result ≡ access_of M.own s i a }
{
    if !s.is_formed(i) {
        return Outcome::refused(Refusal::Malformed, s, i);
    }
    match look_up(M::table(), a) {
        Err(why) => Outcome::refused(why, s, i),
        Ok(to) => {
            let channel = Channel {
                number: to.place as usize,
            };
            perform(to.register, channel, s, i, a)
        }
    }
}

// Pulses on a channel's input.
pub fn pulses<M: Scaler>(s: M, i: Interrupter, channel: u32, n: u32) -> Outcome<M>
    ensures { result ≡ pulses_of M.own s i channel n }
{
    if !s.is_formed(i) {
        return Outcome::refused(Refusal::Malformed, s, i);
    }
    if channel > 15 {
        return Outcome::refused(Refusal::NoChannel, s, i);
    }
    let channel = Channel {
        number: channel as usize,
    };
    pulse_often(s, i, channel, n)
}

// A pulse on the TEST line.
pub fn test<M: Scaler>(s: M, i: Interrupter) -> Outcome<M>
    ensures { result ≡ test_of M.own s i }
{
    if !s.is_formed(i) {
        return Outcome::refused(Refusal::Malformed, s, i);
    }
    test_pulse(s, i)
}

// A pulse on the CLEAR line.
pub fn clear_line<M: Scaler>(s: M, i: Interrupter) -> Outcome<M>
    ensures { result ≡ order_of M.own order.ClearLine s i }
{
    ordered(Order::ClearLine, s, i)
}

// The front veto line, on or off.
pub fn veto_line<M: Scaler>(s: M, i: Interrupter, on: bool) -> Outcome<M>
    ensures { result ≡ order_of M.own (order.VetoLine on) s i }
{
    ordered(Order::VetoLine(on), s, i)
}

// The button MAN CLR.
pub fn man_clr<M: Scaler>(s: M, i: Interrupter) -> Outcome<M>
    ensures { result ≡ order_of M.own order.ManClr s i }
{
    ordered(Order::ManClr, s, i)
}

// Any call.
pub fn step<M: Scaler>(s: M, i: Interrupter, call: Call) -> Outcome<M>
    ensures { result ≡ step_of M.own s i call }
{
    match call {
        Call::Pulses(channel, n) => pulses(s, i, channel, n),
        Call::VetoLine(on) => veto_line(s, i, on),
        Call::Test => test(s, i),
        Call::ClearLine => clear_line(s, i),
        Call::Trigger => trigger(s, i),
        Call::Access(a) => access(s, i, a),
        Call::ManClr => man_clr(s, i),
    }
}

// A line or the button.
fn ordered<M: Scaler>(order: Order, s: M, i: Interrupter) -> Outcome<M>
    ensures { result ≡ order_of M.own order s i }
{
    if !s.is_formed(i) {
        return Outcome::refused(Refusal::Malformed, s, i);
    }
    obeyed(order, s, i)
}

// A trigger, for which the module has no input.
fn trigger<M: Scaler>(s: M, i: Interrupter) -> Outcome<M>
    ensures { result ≡ trigger_of M.own s i }
{
    if !s.is_formed(i) {
        return Outcome::refused(Refusal::Malformed, s, i);
    }
    Outcome::refused(Refusal::NoMeaning, s, i)
}
