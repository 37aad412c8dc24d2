// The calls of a module: it is given and handed back, the interrupter is lent and changed in its place.
ghost use Rattle.std.specs.Prelude.{◌≡◌};
ghost use Rattle.scaler.specs.declared.Order.TheVariants as order;
ghost use Rattle.scaler.specs.Outcomes.{lent_of};
ghost use Rattle.scaler.specs.Calls.{access_of, pulses_of, test_of, order_of, step_of};

use crate::module::{Lent, Scaler};
use crate::{Call, by_value};
use bus::Access;
use bus::interrupter::Interrupter;

// An access by VME.
pub fn access<M: Scaler>(s: M, i: &mut Interrupter, a: Access) -> Lent<M>
    ensures { (result ≡ lent_of (access_of M.own s i.old a)) × (i.new ≡ (access_of M.own s i.old a).interrupter) }
{
    by_value::access(s, *i, a).lent(i)
}

// Pulses on a channel's input.
pub fn pulses<M: Scaler>(s: M, i: &mut Interrupter, channel: u32, n: u32) -> Lent<M>
    ensures { (result ≡ lent_of (pulses_of M.own s i.old channel n)) × (i.new ≡ (pulses_of M.own s i.old channel n).interrupter) }
{
    by_value::pulses(s, *i, channel, n).lent(i)
}

// A pulse on the TEST line.
pub fn test<M: Scaler>(s: M, i: &mut Interrupter) -> Lent<M>
    ensures { (result ≡ lent_of (test_of M.own s i.old)) × (i.new ≡ (test_of M.own s i.old).interrupter) }
{
    by_value::test(s, *i).lent(i)
}

// A pulse on the CLEAR line.
pub fn clear_line<M: Scaler>(s: M, i: &mut Interrupter) -> Lent<M>
    ensures { (result ≡ lent_of (order_of M.own order.ClearLine s i.old)) × (i.new ≡ (order_of M.own order.ClearLine s i.old).interrupter) }
{
    by_value::clear_line(s, *i).lent(i)
}

// The front veto line, on or off.
pub fn veto_line<M: Scaler>(s: M, i: &mut Interrupter, on: bool) -> Lent<M>
    ensures { (result ≡ lent_of (order_of M.own (order.VetoLine on) s i.old)) × (i.new ≡ (order_of M.own (order.VetoLine on) s i.old).interrupter) }
{
    by_value::veto_line(s, *i, on).lent(i)
}

// The button MAN CLR.
pub fn man_clr<M: Scaler>(s: M, i: &mut Interrupter) -> Lent<M>
    ensures { (result ≡ lent_of (order_of M.own order.ManClr s i.old)) × (i.new ≡ (order_of M.own order.ManClr s i.old).interrupter) }
{
    by_value::man_clr(s, *i).lent(i)
}

// Any call.
pub fn step<M: Scaler>(s: M, i: &mut Interrupter, call: Call) -> Lent<M>
    ensures { (result ≡ lent_of (step_of M.own s i.old call)) × (i.new ≡ (step_of M.own s i.old call).interrupter) }
{
    by_value::step(s, *i, call).lent(i)
}
