#![tactic(auto)]

// The two buffers of a program that reads standard input as a stream and writes standard output.
ghost use Rattle.std.specs.Prelude.{◌≡◌, ◌+◌, ◌≤◌, length, take, drop};
ghost use Rattle.stdio.specs.Window.{Refilled, Left};

use std::io;
use std::io::Read;
use words::{number_of, say_failed};

mod course;
mod words;

// The most turns of a program's loop, for the proof that it ends: nothing says that an input does. Each turn shows
// something, reads on or ends the listing, so at a thousand million turns a second they last for five hundred years.
pub const TURNS: u64 = 18446744073709551615;

// What can be amiss with a listing: it ends in a fault, with its number and the byte, or in an event that is refused,
// with its number and the word; a case is wrong at a step; a read or a write failed, with the system's number.
#[derive(Clone, Copy, PartialEq, Eq, Debug)]
pub enum Amiss {
    Fault(u32, u64),
    Refused(u32, u64),
    Wrong(u64, u64),
    Read(u32),
    Write(u32),
}

// How many bytes at the front of a buffer are the input's, whether the input has ended, and whether the read failed.
#[derive(Clone, Copy, PartialEq, Eq, Debug)]
pub struct Window {
    pub have: usize,
    pub ended: bool,
    pub amiss: Option<Amiss>,
}

// A listing under way: the bytes of the input buffer used and had, whether the input has ended, the input's place at
// which that buffer begins, the output buffer's place, whether it goes on, and what is amiss with it.
#[derive(Clone, Copy, PartialEq, Eq, Debug)]
pub struct Listing {
    pub used: usize,
    pub have: usize,
    pub ended: bool,
    pub base: u64,
    pub at: usize,
    pub more: bool,
    pub amiss: Option<Amiss>,
}

// Moves the bytes from `used` up to `have` to the front and reads more of standard input behind them.
#[tactic(auto, using(crate::proofs::Moving::tail_kept))]
pub fn refill(rt: &HostRuntime, buf: &mut [u8], used: usize, have: usize) -> Window
    ensures { Refilled buf.old used have buf.new result }
{
    if used > have || have > buf.len() {
        return Window {
            have: 0,
            ended: true,
            amiss: None,
        };
    }
    let left = have - used;
    // what stands in front already is not copied onto itself: a program that is fed a byte at a time reads often
    if used > 0 {
        buf.copy_within(used..have, 0);
    }
    match rt.stdin().read(&mut buf[left..]) {
        Ok(n) => Window {
            have: left + n,
            ended: n == 0,
            amiss: None,
        },
        Err(error) => unread(rt, left, error),
    }
}

// What a read that failed leaves: the `left` bytes that were there.
fn unread(rt: &HostRuntime, left: usize, error: io::Error) -> Window
    ensures { (result.have ≡ left) × Left left result result.amiss }
{
    let amiss = Amiss::Read(number_of(&error));
    say_failed(rt, amiss, error);
    Window {
        have: left,
        ended: false,
        amiss: Some(amiss),
    }
}
