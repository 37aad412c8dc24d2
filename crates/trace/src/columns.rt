// The numbers of a line: everything that the module holds.
ghost use Rattle.std.specs.Prelude.{◌≡◌, ◌+◌, ◌∷◌, ◌++◌};
ghost use Rattle.trace.specs.Columns.{first_of, own_of, first_of830, numbers260, numbers560, numbers830};

use bus::Answer;
use bus::interrupter::Interrupter;
use scaler::Scales;
use v260::V260;
use v560::V560;
use v830::V830;

// The columns that a V260 and a V560 have before the counts, after the entry's number.
fn first_words(answer: Answer, i: Interrupter, s: Scales) -> [u32; 8]
    ensures { result ≡ first_of answer i s }
{
    let reply = bus::numbered(answer);
    [
        reply.number,
        reply.value,
        u32::from(i.enabled),
        u32::from(i.requested),
        i.level,
        u32::from(i.vector),
        u32::from(s.line),
        u32::from(s.vme),
    ]
}

// A V560's own columns, behind those.
fn own_words(v: V560) -> [u32; 2]
    ensures { result ≡ own_of v }
{
    [u32::from(v.sections), u32::from(v.latch)]
}

// The columns of a V830 before the counts, after the entry's number.
fn first_words_830(answer: Answer, v: V830) -> [u32; 10]
    ensures { result ≡ first_of830 answer v }
{
    let reply = bus::numbered(answer);
    [
        reply.number,
        reply.value,
        v.geo,
        u32::from(v.control),
        v.enable,
        v.tallies.triggers,
        u32::from(v.veto),
        v.store.capacity.0,
        v.store.first,
        v.store.stored.0,
    ]
}

// The numbers of a line: the entry's, the first words, a module's own ones, and two rows of counts.
fn numbers<const W: usize, const O: usize, const C: usize, const L: usize, const N: usize>(
    entry: u64,
    first: [u32; W],
    own: [u32; O],
    counts: [u32; C],
    latches: [u32; L],
) -> [u64; N]
    requires { 1 + W + O + C + L ≡ N }
    ensures { result ≡ (entry ∷ first.entry) ++ own.entry ++ counts.entry ++ latches.entry }
{
    let mut numbers = [0u64; N];
    numbers[0] = entry;
    let at = text::put_words(&mut numbers, 1, &first);
    let at = text::put_words(&mut numbers, at, &own);
    let at = text::put_words(&mut numbers, at, &counts);
    text::put_words(&mut numbers, at, &latches);
    numbers
}

// The numbers of a V260's line; the line of each module has columns of its own (docs/FORMATS.md).
pub(crate) fn numbers_260(entry: u64, answer: Answer, v: V260, i: Interrupter) -> [u64; 41]
    ensures { result ≡ numbers260 entry answer v i }
{
    let s = v.scales;
    numbers(entry, first_words(answer, i, s), [], s.counts, s.latches)
}

// The numbers of a V560's line.
pub(crate) fn numbers_560(entry: u64, answer: Answer, v: V560, i: Interrupter) -> [u64; 43]
    ensures { result ≡ numbers560 entry answer v i }
{
    let s = v.scales;
    numbers(
        entry,
        first_words(answer, i, s),
        own_words(v),
        s.counts,
        s.latches,
    )
}

// The numbers of a V830's line.
pub(crate) fn numbers_830(entry: u64, answer: Answer, v: V830) -> [u64; 43]
    ensures { result ≡ numbers830 entry answer v }
{
    numbers(entry, first_words_830(answer, v), [], v.counts, [])
}
