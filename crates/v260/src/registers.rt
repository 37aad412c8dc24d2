// What an access does to the registers that the V560 has otherwise.
ghost use Rattle.std.specs.Prelude.{◌≡◌, ◌<◌, true};
ghost use Rattle.v260.specs.Outcomes.{fits};
ghost use Rattle.v260.specs.Registers.{counter_word, counter_at, register};

use crate::{Outcome, V260};
use bus::interrupter::Interrupter;
use bus::{Access, Refusal};
use scaler::channel::Channel;
use scaler::{Register, Scales};

// An access of a register and a place in it, which is a channel's.
pub(crate) fn perform(
    reached: Register,
    channel: Channel,
    s: V260,
    i: Interrupter,
    a: Access,
) -> Outcome
    requires { fits s.scales.counts ≡ true }
    ensures { result ≡ register reached channel.number s i a }
{
    match reached {
        Register::Status => Outcome::done(u32::from(s.switches.interrupts), s, i),
        Register::ScaleCounters => counter(channel, s, i, a.width),
        Register::LevelRegister => Outcome::done(i.level, s, i),
        Register::VectorRegister => Outcome::done(0, s, i.vectored((a.data % 256) as u8)),
        // no row of the table leads here: the V560's request register, and what scaler's `perform` does by itself
        _ => Outcome::refused(Refusal::NotInTable, s, i),
    }
}

// What a counter reads, when the module is inhibited or able to count.
fn counter_word(inhibited: bool, count: u32) -> u32
    requires { count < 16777216 }
    ensures { result ≡ counter_word inhibited count }
{
    let able = if inhibited { 0 } else { 0x8000_0000 };
    able + 0x7F00_0000 + count
}

// A counter read at its own offset.
fn counter(channel: Channel, s: V260, i: Interrupter, width: u32) -> Outcome
    requires { fits s.scales.counts ≡ true }
    ensures { result ≡ counter_at channel.number s i width }
{
    let word = counter_word(s.scales.is_inhibited(), s.scales.counts[channel.number]);
    if width == 32 {
        return Outcome::done(word, s, i);
    }
    let mut latches = s.scales.latches;
    latches[channel.number] = word;
    let scales = Scales {
        latches,
        ..s.scales
    };
    Outcome::done(word / 65536, V260 { scales, ..s }, i)
}
