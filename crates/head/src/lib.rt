#![tactic(auto)]

// A head of numbers: log numbers one behind the other, each with a limit of its own. Knows no module.
ghost use Rattle.std.specs.Prelude.{◌≡◌, ◌≤◌, length, take};
ghost use Rattle.head.specs.Heads.{head_of, is_cut, Begun};

use benchlog::Fault;
use stdio::Listing;

// A head that was read: its values, and the place after its last number.
#[derive(Clone, Copy)]
pub struct Head {
    pub values: [u32; 40],
    pub after: usize,
}

// Reads a number for each limit, of the first 40 limits, from the input's first byte on.
pub fn read_head(input: &[u8], limits: &[u32]) -> Result<Head, Fault>
    ensures { result ≡ head_of input.now (take 40 limits.now) }
{
    let mut values = [0u32; 40];
    let mut after = 0;
    let many = limits.len().min(40);
    for i in 0..many {
        let number = benchlog::read_argument(input, after, limits[i])?;
        values[i] = number.value;
        after = number.next;
    }
    Ok(Head { values, after })
}

// Begins a listing: reads on until the head is whole or refused, or the input has ended, or a read fails.
pub fn begin(rt: &HostRuntime, buf: &mut [u8], limits: &[u32]) -> Listing
    ensures { Begun buf.new limits.now result }
{
    let mut l = Listing::begin(0);
    while l.more && !l.ended && is_cut(buf, l, limits) {
        l = l.read_on(rt, buf);
    }
    l
}

// Whether the bytes that are read end inside the head.
fn is_cut(buf: &[u8], l: Listing, limits: &[u32]) -> bool
    requires { l.have ≤ length buf.now }
    ensures { result ≡ is_cut (take l.have buf.now) limits.now }
{
    let have = l.have;
    matches!(read_head(&buf[..have], limits), Err(Fault::Ends))
}
