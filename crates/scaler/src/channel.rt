// The number of a channel, as the calls of a module have it.
ghost use Rattle.std.specs.Prelude.{◌<◌};

// One of the sixteen channels.
#[derive(Clone, Copy, PartialEq, Eq, Debug)]
pub struct Channel {
    pub number: usize,
    ghost below: { number < 16 },
}
