// What a module of sixteen scales is, and what its calls give.
ghost use Rattle.std.specs.Prelude.{◌≡◌, true, not};
ghost use Rattle.bus.proofs.Places.{narrow};
ghost use Rattle.scaler.specs.Outcomes.{refused, done, lent_of};
ghost use Rattle.scaler.specs.Module.{Module};
ghost use Rattle.scaler.specs.Calls.{register_of};

use crate::channel::Channel;
use crate::{Register, Scales};
use bus::interrupter::Interrupter;
use bus::table::Row;
use bus::{Access, Answer, Refusal};
use count::Width;

// What a call gives: the answer, the module and the interrupter after it.
#[derive(Clone, Copy, PartialEq, Eq, Debug)]
pub struct Outcome<S> {
    pub answer: Answer,
    pub state: S,
    pub interrupter: Interrupter,
}

// What a call gives that was lent the interrupter: the answer and the module after it.
#[derive(Clone, Copy, PartialEq, Eq, Debug)]
pub struct Lent<S> {
    pub answer: Answer,
    pub state: S,
}

impl<S> Outcome<S> {
    // A call that is refused: all stays as it was.
    pub fn refused(why: Refusal, state: S, interrupter: Interrupter) -> Self
        ensures { result ≡ refused why state interrupter }
    {
        Outcome {
            answer: Err(why),
            state,
            interrupter,
        }
    }

    // A call that is done, with the value read.
    pub fn done(value: u32, state: S, interrupter: Interrupter) -> Self
        ensures { result ≡ done value state interrupter }
    {
        Outcome {
            answer: Ok(value),
            state,
            interrupter,
        }
    }

    // The same of a call that was lent the interrupter, which is changed in its place.
    pub fn lent(self, i: &mut Interrupter) -> Lent<S>
        ensures { (result ≡ lent_of self) × (i.new ≡ self.interrupter) }
    {
        *i = self.interrupter;
        Lent {
            answer: self.answer,
            state: self.state,
        }
    }
}

// A module of sixteen scales.
pub trait Scaler: Copy {
    ghost own: { Module Self };

    // Its scales.
    fn scales(self) -> Scales
        ensures { result ≡ own.scales self };

    // The module with other scales.
    fn scaled(self, scales: Scales) -> Self
        ensures { result ≡ own.scaled scales self };

    // Its table of registers.
    fn table() -> &'static [Row<Register>]
        ensures { result.now ≡ own.registers };

    // An access of a register that the other module has otherwise, refused where module or interrupter is malformed.
    fn register(
        self,
        i: Interrupter,
        register: Register,
        channel: Channel,
        a: Access,
    ) -> Outcome<Self>
        ensures { result ≡ register_of own register channel.number self i a };

    // Whether the module and the interrupter are well formed.
    fn is_formed(self, i: Interrupter) -> bool
        ensures { result ≡ own.formed self i };

    // Whether no channel is joined.
    fn is_unjoined(self) -> bool
        ensures { result ≡ own.unjoined self };

    // How wide a channel is.
    fn width() -> Width
        ensures { result ≡ own.width };

    // Whether the input of a channel does nothing.
    fn is_ignored(self, channel: Channel) -> bool
        ensures { result ≡ own.ignores self channel.number };

    // The counts after a pulse that is admitted to a channel.
    fn counts_after(self, channel: Channel) -> [u32; 16]
        ensures { result ≡ own.pulsed self channel.number };

    // The bit of a channel that is watched, if one is.
    fn watched(self, channel: Channel) -> Option<u32>
        ensures { result ≡ own.watched self channel.number };

    // A row of its table has no more than sixteen places.
    ghost sixteen_places: { narrow (λ register. 16) own.registers ≡ true };
}
