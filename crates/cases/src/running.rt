// How a case is run: each step is given to the module or to the log reader, and the answer compared.
ghost use Rattle.std.specs.Prelude.{◌≡◌};
ghost use Rattle.benchlog.specs.Number.{number_at};
ghost use Rattle.meb.specs.Ring.{lent};
ghost use Rattle.cases.specs.Running.{reply_of_numeral, inhibits, pulses_in, admitted_by, replied, after_step, memory_left, filled, seen, is_expected, wrong_with, wrong_in};
ghost use Rattle.cases.specs.declared.Step.TheVariants.{Gives};

use crate::{Case, Line, Step};
use benchlog::{Entry, Numeral, Refused};
use bus::{Answer, Reply};
use modules::{Held, Module};

// The module, and the pulses admitted to it.
#[derive(Clone, Copy)]
struct Bench {
    held: Held,
    pulses: u32,
}

// The answer of the log reader.
fn reply_of_numeral(numeral: Result<Numeral, Refused>) -> Reply
    ensures { result ≡ reply_of_numeral numeral }
{
    match numeral {
        Ok(read) => Reply {
            number: 0,
            value: read.value,
        },
        Err(refused) => Reply {
            number: refused.fault.number(),
            value: 0,
        },
    }
}

// Whether the module admits no pulse.
fn is_inhibited(m: Module) -> bool
    ensures { result ≡ inhibits m }
{
    match m {
        Module::V260(s, _) => s.scales.is_inhibited(),
        Module::V560(s, _) => s.scales.is_inhibited(),
        Module::V830(s) => s.veto,
    }
}

// The pulses that an entry brings.
fn pulses_in(entry: Entry) -> u32
    ensures { result ≡ pulses_in entry }
{
    match entry {
        Entry::Pulse(_, n) => n,
        _ => 0,
    }
}

impl Bench {
    // Those of them that are admitted.
    fn admitted_by(&self, entry: Entry, answer: Answer) -> u32
        ensures { result ≡ admitted_by self.now entry answer }
    {
        if answer.is_ok() && !is_inhibited(self.held.module) {
            pulses_in(entry)
        } else {
            0
        }
    }

    // An entry given to the module.
    fn give(&mut self, memory: &mut [u32], entry: Entry) -> Reply
        ensures reply { result ≡ replied self.old (lent memory.old) (Gives entry) }
        ensures after { self.new ≡ after_step self.old (lent memory.old) (Gives entry) }
        ensures left { memory.new ≡ (memory_left self.old (lent memory.old) (Gives entry)).words }
    {
        let held = modules::act(self.held, memory, entry);
        let admitted = self.admitted_by(entry, held.answer);
        *self = Bench {
            held,
            pulses: self.pulses.wrapping_add(admitted),
        };
        bus::numbered(held.answer)
    }

    // A step of a case.
    fn turn(&mut self, memory: &mut [u32], step: Step) -> Reply
        ensures reply { result ≡ replied self.old (lent memory.old) step }
        ensures after { self.new ≡ after_step self.old (lent memory.old) step }
        ensures left { memory.new ≡ (memory_left self.old (lent memory.old) step).words }
    {
        match step {
            Step::Gives(entry) => self.give(memory, entry),
            Step::Reads(bytes) => reply_of_numeral(benchlog::read_number(&bytes, 0)),
        }
    }
}

// Whether an answer is the one expected.
fn is_expected(line: Line, reply: Reply) -> bool
    ensures { result ≡ is_expected line reply }
{
    reply == line.expected
}

// The values of a start: those that are given, and zeros behind them.
fn filled(start: &[u32]) -> [u32; 40]
    ensures { result ≡ filled start.now }
{
    let mut values = [0u32; 40];
    let given = start.len().min(40);
    values[..given].copy_from_slice(&start[..given]);
    values
}

// The number of the first step that is wrong, if one is, with this memory lent.
fn first_wrong(c: Case, memory: &mut [u32]) -> Option<usize>
    ensures { result ≡ wrong_with (seen c) (lent memory.old) }
{
    let held = modules::begin(c.which, filled(c.start), memory);
    let mut b = Bench { held, pulses: 0 };
    for (k, line) in c.lines.iter().enumerate() {
        let reply = b.turn(memory, line.step);
        if !is_expected(*line, reply) {
            return Some(k + 1);
        }
    }
    if b.pulses == c.pulses {
        None
    } else {
        Some(c.lines.len() + 1)
    }
}

// The number of the first step of a case that is wrong, if one is.
pub(crate) fn wrong_in(c: Case) -> Option<usize>
    ensures { result ≡ wrong_in (seen c) }
{
    let mut memory = [0u32; 66];
    let end = modules::lent(c.which, filled(c.start), 66);
    first_wrong(c, &mut memory[..end])
}
