// The enabled channels, one after the other.
ghost use Rattle.std.specs.Prelude.{◌∷◌};
ghost use Rattle.std.specs.Iterator.{YieldsFirst, item_count};
ghost use Rattle.layout.specs.Length.{channels_left};

// Those of a mask: trailing zeros find the next one, and the mask of those behind it is left.
#[derive(Clone, Copy)]
pub struct Channels(pub u32);

impl Iterator for Channels {
    type Item = u32;

    ghost next_gives = { YieldsFirst channels_left };

    ghost remaining = { item_count channels_left };

    fn next(&mut self) -> Option<u32> {
        if self.0 == 0 {
            return None;
        }
        let channel = self.0.trailing_zeros();
        self.0 -= 1 << channel;
        Some(channel)
    }
}
