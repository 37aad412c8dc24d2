#![tactic(auto)]

// One counter of w bits: what a tick does to it, and when a watched bit rises.
ghost use Rattle.std.specs.Prelude.{◌≡◌, ◌^◌, map};
ghost use Rattle.count.specs.Counter.{bits_of, next, tick_of, rises};

// How wide a counter is: 24 bits in the V260, 32 in the V560 and the V830.
#[derive(Clone, Copy, PartialEq, Eq, Debug)]
pub enum Width {
    Bits24,
    Bits32,
}

impl Width {
    // What a counter counts modulo.
    fn modulus(self) -> u64
        ensures { result ≡ 2 ^ bits_of self }
    {
        match self {
            Width::Bits24 => 1 << 24,
            Width::Bits32 => 1 << 32,
        }
    }
}

// A counter after one tick, and whether it went from all ones to 0.
#[derive(Clone, Copy, PartialEq, Eq, Debug)]
pub struct Ticked {
    pub value: u32,
    pub carry: bool,
}

// One tick of a counter.
pub fn tick(width: Width, count: u32) -> Ticked
    ensures { result ≡ tick_of (bits_of width) count }
{
    let count = u64::from(count);
    let modulus = width.modulus();
    Ticked {
        value: ((count + 1) % modulus) as u32,
        carry: count == modulus - 1,
    }
}

// Whether a bit of a counter went from 0 to 1.
pub fn bit_rose(bit: u32, before: u32, after: u32) -> bool
    ensures { result ≡ rises bit before after }
{
    bit < 32 && (before >> bit) % 2 == 0 && (after >> bit) % 2 == 1
}

// Each of the lent counters counts one.
pub fn tick_each(width: Width, counts: &mut [u32])
    ensures { counts.new ≡ map (next (bits_of width)) counts.old }
{
    for count in counts.iter_mut() {
        *count = tick(width, *count).value;
    }
}
