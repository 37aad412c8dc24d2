// What pulses do: a channel counts, those joined to it count its carries, and a watched bit that rises requests.
ghost use Rattle.std.specs.Prelude.{◌≡◌, ◌||◌};
ghost use Rattle.count.specs.Counter.{iterate};
ghost use Rattle.scaler.specs.Orders.{inhibited};
ghost use Rattle.scaler.specs.Outcomes.{done};
ghost use Rattle.scaler.specs.Calls.{rise_of, rose, counted, pulse, tested};

use crate::Scales;
use crate::channel::Channel;
use crate::module::{Outcome, Scaler};
use bus::Refusal;
use bus::interrupter::Interrupter;

// Whether the watched bit of a channel, if one is, went from 0 to 1.
fn did_rise(watched: Option<u32>, before: u32, after: u32) -> bool
    ensures { result ≡ rise_of watched before after }
{
    match watched {
        Some(bit) => count::bit_rose(bit, before, after),
        None => false,
    }
}

// Whether a watched bit rose; a count that stayed is not asked for its bit, since at each pulse most stay.
fn any_rose<M: Scaler>(s: M, before: [u32; 16], after: [u32; 16]) -> bool
    ensures { result ≡ rose M.own s before after }
{
    for k in 0..16 {
        if before[k] != after[k]
            && did_rise(s.watched(Channel { number: k }), before[k], after[k])
        {
            return true;
        }
    }
    false
}

// The module and the interrupter after a step of counting.
fn count_to<M: Scaler>(after: [u32; 16], s: M, i: Interrupter) -> Outcome<M>
    ensures { result ≡ counted M.own after s i }
{
    let scales = s.scales();
    let rose = any_rose(s, scales.counts, after);
    let state = s.scaled(Scales {
        counts: after,
        ..scales
    });
    Outcome::done(0, state, i.raised(rose))
}

// Whether no pulse on a channel's input is admitted, or does anything.
fn admits_none<M: Scaler>(s: M, channel: Channel) -> bool
    ensures { result ≡ inhibited (M.own.scales s) || M.own.ignores s channel.number }
{
    s.scales().is_inhibited() || s.is_ignored(channel)
}

// One pulse on a channel's input.
fn pulse_once<M: Scaler>(o: Outcome<M>, channel: Channel) -> Outcome<M>
    ensures { result ≡ pulse M.own channel.number o }
{
    let s = o.state;
    if admits_none(s, channel) {
        return o;
    }
    count_to(s.counts_after(channel), s, o.interrupter)
}

// That many pulses on a channel's input, one after the other, unless none is admitted, however many there are.
pub(crate) fn pulse_often<M: Scaler>(s: M, i: Interrupter, channel: Channel, n: u32) -> Outcome<M>
    ensures { result ≡ iterate n (pulse M.own channel.number) (done 0 s i) }
{
    let mut o = Outcome::done(0, s, i);
    if admits_none(s, channel) {
        return o;
    }
    for _ in 0..n {
        o = pulse_once(o, channel);
    }
    o
}

// A pulse to all channels at once.
pub(crate) fn test_pulse<M: Scaler>(s: M, i: Interrupter) -> Outcome<M>
    ensures { result ≡ tested M.own s i }
{
    if !s.is_unjoined() {
        return Outcome::refused(Refusal::NoMeaning, s, i);
    }
    let scales = s.scales();
    if scales.is_inhibited() {
        return Outcome::done(0, s, i);
    }
    let mut counts = scales.counts;
    count::tick_each(M::width(), &mut counts);
    count_to(counts, s, i)
}
