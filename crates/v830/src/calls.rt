// The calls of a V830, by one door: the gate, 12 and 10, then the deed.
ghost use Rattle.std.specs.Prelude.{◌≡◌, true, ◌<◌, length};
ghost use Rattle.meb.specs.Ring.{lent};
ghost use Rattle.v830.specs.State.{formed};
ghost use Rattle.v830.specs.Deeds.{done_by, counter_of};
ghost use Rattle.v830.specs.Calls.{is_lent, has_length, is_lent_right, gate_of, step_of};

use crate::deeds::{Deed, of_call};
use crate::{Call, Outcome, V830};
use bus::{Answer, Refusal};

impl Call {
    // Whether a call is lent the memory: accesses and the trigger are.
    fn is_lent(self) -> bool
        ensures { result ≡ is_lent self }
    {
        matches!(self, Call::TriggerLine | Call::Access(_))
    }
}

impl V830 {
    // Whether the memory that is lent has the length fixed at the start.
    fn has_length(self, memory: &[u32]) -> bool
        ensures { result ≡ has_length self (lent memory.now) }
    {
        memory.len() == self.store.capacity.0 as usize
    }

    // Whether a call is lent no memory, or that of the module.
    fn is_lent_right(self, memory: &[u32], call: Call) -> bool
        ensures { result ≡ is_lent_right self (lent memory.now) call }
    {
        !call.is_lent() || self.has_length(memory)
    }

    // Does what a call is to do, to a module that is not malformed. That is a clause, here and of the trigger, and not
    // a type round the record: a record is what its maker writes, and each of these deeds would have to open the type.
    fn perform(self, deed: Deed, memory: &mut [u32]) -> Outcome
        requires { (formed self ≡ true) × (counter_of deed < 32) }
        ensures { (result ≡ (done_by deed self (lent memory.old)).outcome) × (memory.new ≡ (done_by deed self (lent memory.old)).memory.words) }
    {
        match deed {
            Deed::Refuse(why) => self.refused(why),
            Deed::Pulses(channel, n) => self.pulsed(channel, n),
            Deed::Veto(on) => self.vetoed(on).done(0),
            Deed::Test => self.tested().done(0),
            Deed::Clear(by) => self.cleared(by).done(0),
            Deed::Trigger(by) => self.triggered(by, memory),
            Deed::HandOut => self.hand_out(memory),
            Deed::ReadCounter(k) => self.counter(k as usize),
            Deed::ReadEnable => self.done(self.enable),
            Deed::WriteEnable(word) => self.write_enable(word),
            Deed::ReadControl => self.done(self.control as u32),
            Deed::WriteControl(word) => self.controlled((word % 256) as u8),
            Deed::SetBits(word) => self.set_bits(word),
            Deed::ClearBits(word) => self.clear_bits(word),
            Deed::Reset => self.reset().done(0),
            Deed::ReadTriggers => self.done(self.tallies.triggers),
            Deed::ReadEvents => self.event_number(),
        }
    }
}

// The gate by itself, for who makes many calls on one memory: 12, 10 or neither.
pub fn gate(s: V830, memory: &[u32]) -> Answer
    ensures { result ≡ gate_of s (lent memory.now) }
{
    if !s.is_formed() {
        return Err(Refusal::Malformed);
    }
    if !s.has_length(memory) {
        return Err(Refusal::WrongMemory);
    }
    Ok(0)
}

// Any call: the gate, then the deed.
pub fn step(s: V830, memory: &mut [u32], call: Call) -> Outcome
    ensures { (result ≡ (step_of s (lent memory.old) call).outcome) × (memory.new ≡ (step_of s (lent memory.old) call).memory.words) }
{
    if !s.is_formed() {
        return s.refused(Refusal::Malformed);
    }
    if !s.is_lent_right(memory, call) {
        return s.refused(Refusal::WrongMemory);
    }
    s.perform(of_call(call), memory)
}

// The inner door, for proved callers that carry along that the module is not malformed and has its memory: any call,
// 12 and 10 not asked again.
pub fn step_formed(s: V830, memory: &mut [u32], call: Call) -> Outcome
    requires { (formed s ≡ true) × (length memory.old ≡ s.store.capacity.0) }
    ensures { (result ≡ (step_of s (lent memory.old) call).outcome) × (memory.new ≡ (step_of s (lent memory.old) call).memory.words) }
{
    s.perform(of_call(call), memory)
}
