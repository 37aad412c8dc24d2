// What pulses do: a channel counts, the channels joined behind it count its carries, and a watched bit that rises
// requests.
ghost use Rattle.std.specs.Prelude.{◌≡◌};
ghost use Rattle.v260.specs.Counting.{is_joined, pulsed, may_request, interrupt_bit, watched_bit, watched};

use crate::Switches;
use count::Width;
use scaler::channel::Channel;

impl Switches {
    // Whether a channel is joined to the one before it.
    pub(crate) fn is_joined(self, channel: Channel) -> bool
        ensures { result ≡ is_joined self channel.number }
    {
        (u32::from(self.joined) >> channel.number) % 2 == 1
    }

    // The counts after a pulse that is admitted to a channel.
    pub(crate) fn counts_after(self, mut counts: [u32; 16], channel: Channel) -> [u32; 16]
        ensures { result ≡ pulsed self counts channel.number }
    {
        let mut k = channel;
        for _ in 0..16u32 {
            let ticked = count::tick(Width::Bits24, counts[k.number]);
            counts[k.number] = ticked.value;
            k = Channel {
                number: (k.number + 1) % 16,
            };
            if !ticked.carry || !self.is_joined(k) {
                return counts;
            }
        }
        counts
    }

    // The bit that is watched in a channel, if it may request.
    pub(crate) fn watched(self, channel: Channel) -> Option<u32>
        ensures { result ≡ watched self channel.number }
    {
        self.may_request(channel)
            .then_some(self.watched_bit(channel))
    }

    // Whether a channel may request.
    fn may_request(self, channel: Channel) -> bool
        ensures { result ≡ may_request self channel.number }
    {
        (u32::from(self.interrupts) >> channel.number) % 2 == 1
    }

    // The bit that is watched in a channel, by its half's jumper.
    fn watched_bit(self, channel: Channel) -> u32
        ensures { result ≡ watched_bit self channel.number }
    {
        interrupt_bit(if channel.number < 8 {
            self.jp18
        } else {
            self.jp17
        })
    }
}

// The bit that a jumper selects.
fn interrupt_bit(inserted: bool) -> u32
    ensures { result ≡ interrupt_bit inserted }
{
    if inserted { 23 } else { 15 }
}
