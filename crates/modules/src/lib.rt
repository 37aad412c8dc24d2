#![tactic(auto)]

// The three modules as one: whichever a head names, started, and what an entry of the log does to it.
ghost use Rattle.std.specs.Prelude.{◌≡◌, ◌+◌, ◌≤◌, length, take, drop};
ghost use Rattle.meb.specs.Ring.{lent};
ghost use Rattle.scaler.specs.Calls.{step_of};
ghost use Rattle.modules.specs.Entries.{call_of, after260, after560, after830, acted, memory_after};
ghost use Rattle.modules.specs.Heads.{named, switches_of, counted, begun260, begun560, begun830, begun_of, lent_of};

use benchlog::Entry;
use bus::Answer;
use bus::interrupter::Interrupter;
use logged::{access_for, call_830_of};
use scaler::module::{Outcome, Scaler};
use scaler::{Call, Scales, in_place};
use v260::{Switches, V260};
use v560::V560;
use v830::V830;

// Which of the three it is.
#[derive(Clone, Copy, PartialEq, Eq, Debug)]
pub enum Which {
    V260,
    V560,
    V830,
}

impl Which {
    // The module that a number names.
    pub fn named(name: u32) -> Option<Which>
        ensures { result ≡ named name }
    {
        match name {
            260 => Some(Which::V260),
            560 => Some(Which::V560),
            830 => Some(Which::V830),
            _ => None,
        }
    }
}

// The module that there is; the two scalers have an interrupter beside them, a V830 has none.
#[derive(Clone, Copy, PartialEq, Eq, Debug)]
pub enum Module {
    V260(V260, Interrupter),
    V560(V560, Interrupter),
    V830(V830),
}

// A module, with the answer of its last call.
#[derive(Clone, Copy, PartialEq, Eq, Debug)]
pub struct Held {
    pub answer: Answer,
    pub module: Module,
}

// The call of a V260 or a V560 that an entry of the log makes.
fn call_of(entry: Entry) -> Call
    ensures { result ≡ call_of entry }
{
    match entry {
        Entry::Pulse(channel, n) => Call::Pulses(channel, n),
        Entry::Veto(on) => Call::VetoLine(on),
        Entry::Test => Call::Test,
        Entry::Clear => Call::ClearLine,
        Entry::Trigger => Call::Trigger,
        Entry::Read(offset, width) => Call::Access(access_for(false, offset, width, 0)),
        Entry::Write(offset, width, data) => Call::Access(access_for(true, offset, width, data)),
        Entry::ManClr => Call::ManClr,
    }
}

// What a call of a V260 leaves.
impl From<Outcome<V260>> for Held {
    ghost from_gives = { λ o held. held ≡ after260 o };

    fn from(o: Outcome<V260>) -> Held {
        Held {
            answer: o.answer,
            module: Module::V260(o.state, o.interrupter),
        }
    }
}

// What a call of a V560 leaves.
impl From<Outcome<V560>> for Held {
    ghost from_gives = { λ o held. held ≡ after560 o };

    fn from(o: Outcome<V560>) -> Held {
        Held {
            answer: o.answer,
            module: Module::V560(o.state, o.interrupter),
        }
    }
}

// What a call of a V830 leaves.
impl From<v830::Outcome> for Held {
    ghost from_gives = { λ o held. held ≡ after830 o };

    fn from(o: v830::Outcome) -> Held {
        Held {
            answer: o.answer,
            module: Module::V830(o.state),
        }
    }
}

// A call of a module of sixteen scales, to which the interrupter is lent.
fn lend<M: Scaler>(state: M, mut interrupter: Interrupter, call: Call) -> Outcome<M>
    ensures { result ≡ step_of M.own state interrupter call }
{
    let l = in_place::step(state, &mut interrupter, call);
    Outcome {
        answer: l.answer,
        state: l.state,
        interrupter,
    }
}

// The module after an entry; a V830 is lent the memory.
pub fn act(t: Held, memory: &mut [u32], entry: Entry) -> Held
    ensures { (result ≡ acted t (lent memory.old) entry) × (memory.new ≡ (memory_after t (lent memory.old) entry).words) }
{
    match t.module {
        Module::V260(s, i) => lend(s, i, call_of(entry)).into(),
        Module::V560(s, i) => lend(s, i, call_of(entry)).into(),
        Module::V830(s) => v830::step(s, memory, call_830_of(entry)).into(),
    }
}

// So many counts of a head's values, from a place on.
fn counts_of<const N: usize>(values: [u32; 40], from: usize) -> [u32; N]
    requires { from + N ≤ 40 }
    ensures { result ≡ take N (drop from values) }
{
    let mut counts = [0u32; N];
    counts.copy_from_slice(&values[from..from + N]);
    counts
}

// The switches of a V260's head.
fn switches_of(values: [u32; 40]) -> Switches
    ensures { result ≡ switches_of values }
{
    Switches {
        joined: (values[1] % 65536) as u16,
        interrupts: (values[2] % 65536) as u16,
        jp18: values[3] % 2 == 1,
        jp17: values[3] / 2 % 2 == 1,
    }
}

// A module of sixteen scales that is started, given its counts of a head's values, from a place on.
fn counted<M: Scaler>(o: Outcome<M>, values: [u32; 40], from: usize) -> Outcome<M>
    requires { from + 16 ≤ 40 }
    ensures { result ≡ counted M.own (take 16 (drop from values)) o }
{
    let scales = Scales {
        counts: counts_of(values, from),
        ..o.state.scales()
    };
    Outcome {
        state: o.state.scaled(scales),
        ..o
    }
}

// A V260 that is started with the switches of a head, and then given its counts.
fn begin_260(values: [u32; 40]) -> Held
    ensures { result ≡ begun260 values }
{
    counted(v260::start(switches_of(values), values[4]), values, 5).into()
}

// A V560, likewise.
fn begin_560(values: [u32; 40]) -> Held
    ensures { result ≡ begun560 values }
{
    counted(v560::start((values[1] % 256) as u8), values, 2).into()
}

// A V830, likewise, with the memory that is lent to it.
fn begin_830(values: [u32; 40], memory: &[u32]) -> Held
    ensures { result ≡ begun830 values (lent memory.now) }
{
    let o = v830::start(values[1], memory);
    let state = V830 {
        counts: counts_of(values, 3),
        ..o.state
    };
    v830::Outcome { state, ..o }.into()
}

// The module that is named, started with the values of its head and the memory that is lent to it.
pub fn begin(which: Which, values: [u32; 40], memory: &[u32]) -> Held
    ensures { result ≡ begun_of which values (lent memory.now) }
{
    match which {
        Which::V260 => begin_260(values),
        Which::V560 => begin_560(values),
        Which::V830 => begin_830(values, memory),
    }
}

// How many of so many words the module is lent: a V830 its capacity, as far as there are so many.
pub fn lent(which: Which, values: [u32; 40], most: usize) -> usize
    ensures { (result ≡ lent_of which values most) × (result ≤ most) }
{
    match which {
        Which::V260 | Which::V560 => 0,
        Which::V830 => most.min(values[2] as usize),
    }
}
