// What pulses do: a channel counts, the joined one counts its carries, and a watched bit that rises requests. Each is
// asked of the byte of switches that it needs, and not of the module, which a method would copy for it.
ghost use Rattle.std.specs.Prelude.{◌≡◌};
ghost use Rattle.v560.specs.Counting.{is_joined, is_high, is_low, watches, pulsed};

use count::Width;
use scaler::channel::Channel;

// Whether the section of a channel is joined.
fn is_joined(joined: u8, channel: Channel) -> bool
    ensures { result ≡ is_joined joined channel.number }
{
    (u32::from(joined) >> (channel.number / 2)) % 2 == 1
}

// Whether a channel is the high part of a joined section, whose input does nothing.
pub(crate) fn is_high(joined: u8, channel: Channel) -> bool
    ensures { result ≡ is_high joined channel.number }
{
    is_joined(joined, channel) && channel.number % 2 == 0
}

// Whether a channel is the low part of a joined section, whose carries clock the high part.
fn is_low(joined: u8, channel: Channel) -> bool
    ensures { result ≡ is_low joined channel.number }
{
    is_joined(joined, channel) && channel.number % 2 == 1
}

// Whether bit 31 of a channel is watched.
pub(crate) fn is_watched(joined: u8, sections: u8, channel: Channel) -> bool
    ensures { result ≡ watches joined sections channel.number }
{
    !is_low(joined, channel) && (u32::from(sections) >> (channel.number / 2)) % 2 == 1
}

// The counts after a pulse that is admitted to a channel.
pub(crate) fn counts_after(joined: u8, mut counts: [u32; 16], channel: Channel) -> [u32; 16]
    ensures { result ≡ pulsed joined counts channel.number }
{
    let low = count::tick(Width::Bits32, counts[channel.number]);
    counts[channel.number] = low.value;
    if low.carry && is_low(joined, channel) {
        let high = count::tick(Width::Bits32, counts[channel.number - 1]);
        counts[channel.number - 1] = high.value;
    }
    counts
}
