// What an access does to the registers that the V260 has otherwise.
ghost use Rattle.std.specs.Prelude.{◌≡◌, ◌<◌};
ghost use Rattle.v560.specs.Registers.{level_word, counter_at, request_for, level_for, vector_for, register};

use crate::{Outcome, V560};
use bus::interrupter::Interrupter;
use bus::{Access, Refusal};
use scaler::channel::Channel;
use scaler::{Register, Scales};

// An access of a register and a place in it, which is a channel's.
pub(crate) fn perform(
    reached: Register,
    channel: Channel,
    s: V560,
    i: Interrupter,
    a: Access,
) -> Outcome
    requires { i.level < 8 }
    ensures { result ≡ register reached channel.number s i a }
{
    match reached {
        Register::Status => Outcome::done(65280 + u32::from(s.joined), s, i),
        Register::ScaleCounters => counter(channel, s, i, a.width),
        Register::RequestRegister => request(s, i, a),
        Register::LevelRegister => level(s, i, a),
        Register::VectorRegister => vector(s, i, a),
        // no row of the table leads here: scaler's `perform` does the others by itself
        _ => Outcome::refused(Refusal::NotInTable, s, i),
    }
}

// A counter read at its own offset.
fn counter(channel: Channel, s: V560, i: Interrupter, width: u32) -> Outcome
    ensures { result ≡ counter_at channel.number s i width }
{
    let latch = !s.scales.is_inhibited();
    let word = s.scales.counts[channel.number];
    if width == 32 {
        return Outcome::done(word, V560 { latch, ..s }, i);
    }
    let mut latches = s.scales.latches;
    latches[channel.number] = word;
    let scales = Scales {
        latches,
        ..s.scales
    };
    Outcome::done(word / 65536, V560 { scales, latch, ..s }, i)
}

// The request register.
fn request(s: V560, i: Interrupter, a: Access) -> Outcome
    ensures { result ≡ request_for a.write s i a.«data» }
{
    if a.write {
        let sections = (a.data % 256) as u8;
        Outcome::done(0, V560 { sections, ..s }, i)
    } else {
        Outcome::done(65280 + u32::from(s.sections), s, i)
    }
}

// The interrupt level and veto register.
fn level(s: V560, i: Interrupter, a: Access) -> Outcome
    requires { i.level < 8 }
    ensures { result ≡ level_for a.write s i a.«data» }
{
    if a.write {
        Outcome::done(0, s, i.levelled(a.data % 8))
    } else {
        Outcome::done(level_word(s.latch, i.level), s, i)
    }
}

// What the interrupt level and veto register reads.
fn level_word(latch: bool, level: u32) -> u32
    requires { level < 8 }
    ensures { result ≡ level_word latch level }
{
    0xFF78 + level + if latch { 0x80 } else { 0 }
}

// The interrupt vector register.
fn vector(s: V560, i: Interrupter, a: Access) -> Outcome
    ensures { result ≡ vector_for a.write s i a.«data» }
{
    if a.write {
        Outcome::done(0, s, i.vectored((a.data % 256) as u8))
    } else {
        Outcome::done(65280 + u32::from(i.vector), s, i)
    }
}
