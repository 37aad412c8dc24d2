#![tactic(auto)]

// Shows everything that a V260, a V560 or a V830 holds, after each entry of a log.
ghost use Rattle.std.specs.Prelude.{◌≡◌, ◌≤◌, length};
ghost use Rattle.head.specs.Heads.{head_of, up_from};
ghost use Rattle.trace.specs.Start.{limits_of, head_in};

use benchlog::{Entry, Fault, Reading};
use columns::{numbers_260, numbers_560, numbers_830};
use head::Head;
use modules::{Held, Module, Which};
use stdio::{Amiss, Listing};

mod columns;

// A listing under way: the buffers and the memory lent to it, where it stands in them, the module, and how many entries
// it has shown.
#[derive(Drop)]
struct Course<'a> {
    rt: &'a HostRuntime,
    buf: &'a mut [u8],
    out: &'a mut [u8],
    memory: &'a mut [u32],
    listing: Listing,
    traced: Held,
    entries: u64,
    ghost had: { listing.have ≤ length buf.now },
}

// The head of a module; a number has a limit of its own, or none.
fn head_of(which: Which, input: &[u8]) -> Result<Head, Fault>
    ensures { result ≡ head_of input.now (limits_of which) }
{
    let mut limits = [u32::MAX; 40];
    let many = match which {
        Which::V260 => {
            limits[1] = 65535;
            limits[2] = 65535;
            limits[3] = 3;
            21
        }
        Which::V560 => {
            limits[1] = 255;
            18
        }
        Which::V830 => {
            limits[2] = 40000;
            35
        }
    };
    head::read_head(input, &limits[..many])
}

// The head that an input begins with; its first number names the module.
fn head_in(input: &[u8]) -> Result<(Which, Head), Fault>
    ensures { result ≡ head_in input.now }
{
    let name = head::read_head(input, &[u32::MAX])?;
    let Some(which) = Which::named(name.values[0]) else {
        return Err(Fault::NoSuchKind);
    };
    Ok((which, head_of(which, input)?))
}

// The line that names the columns.
fn names(module: Module) -> &'static [u8] {
    match module {
        Module::V260(_, _) => {
            b"entry answer value enabled requested level vector line vme c0 c1 c2 c3 c4 c5 c6 c7 c8 c9 c10 c11 c12 c13 c14 c15 l0 l1 l2 l3 l4 l5 l6 l7 l8 l9 l10 l11 l12 l13 l14 l15\n"
        }
        Module::V560(_, _) => {
            b"entry answer value enabled requested level vector line vme sections latch c0 c1 c2 c3 c4 c5 c6 c7 c8 c9 c10 c11 c12 c13 c14 c15 l0 l1 l2 l3 l4 l5 l6 l7 l8 l9 l10 l11 l12 l13 l14 l15\n"
        }
        Module::V830(_) => {
            b"entry answer value geo control enable triggers veto capacity first stored c0 c1 c2 c3 c4 c5 c6 c7 c8 c9 c10 c11 c12 c13 c14 c15 c16 c17 c18 c19 c20 c21 c22 c23 c24 c25 c26 c27 c28 c29 c30 c31\n"
        }
    }
}

// Puts the line of what the module holds after an entry.
fn put_held(out: &mut [u8], room: usize, entry: u64, traced: Held) -> usize {
    match traced.module {
        Module::V260(v, i) => {
            text::put_line(out, room, &numbers_260(entry, traced.answer, v, i))
        }
        Module::V560(v, i) => {
            text::put_line(out, room, &numbers_560(entry, traced.answer, v, i))
        }
        Module::V830(v) => text::put_line(out, room, &numbers_830(entry, traced.answer, v)),
    }
}

// Puts a word of the memory after a blank.
fn put_word(rt: &HostRuntime, out: &mut [u8], before: Listing, word: u32) -> Listing {
    let mut l = before.make_room(rt, out, 11);
    let p = text::put_text(out, l.at, b" ");
    l.at = text::put_number(out, p, u64::from(word));
    l
}

// Puts a text.
fn put_text(rt: &HostRuntime, out: &mut [u8], before: Listing, words: &[u8]) -> Listing {
    let mut l = before.make_room(rt, out, words.len());
    l.at = text::put_text(out, l.at, words);
    l
}

// Puts the line of every lent word.
fn put_memory(rt: &HostRuntime, out: &mut [u8], before: Listing, memory: &[u32]) -> Listing {
    let mut l = put_text(rt, out, before, b"memory");
    for word in memory {
        l = put_word(rt, out, l, *word);
    }
    put_text(rt, out, l, b"\n")
}

// Puts what comes after the last line: the memory of a V830, unless the listing is cut by a read that failed.
fn put_last(rt: &HostRuntime, out: &mut [u8], l: Listing, traced: Held, memory: &[u32]) -> Listing {
    match (l.amiss, traced.module) {
        (Some(Amiss::Read(_)), _) => l,
        (_, Module::V830(_)) => put_memory(rt, out, l, memory),
        _ => l,
    }
}

impl Course<'_> {
    // Gives the module an entry, shows what it holds then, and goes on behind it.
    fn show(&mut self, entry: Entry, next: usize) {
        self.traced = modules::act(self.traced, self.memory, entry);
        self.entries = self.entries.wrapping_add(1);
        self.listing.at = put_held(self.out, self.listing.at, self.entries, self.traced);
        self.listing.used = next;
    }

    // Shows the entry that comes next, or reads on, or ends the listing.
    fn turn(&mut self) {
        let l = self.listing.make_room(self.rt, self.out, 903);
        match benchlog::read_entry(&self.buf[..l.have], l.used) {
            Ok(Reading { entry, next }) => {
                self.listing = l;
                self.show(entry, next);
            }
            Err(refused) if !l.ended && refused.fault == Fault::Ends => {
                self.listing = l.flush(self.rt, self.out).read_on(self.rt, self.buf);
            }
            Err(refused) => self.listing = l.end(self.out, refused.fault.number()),
        }
    }

    // Shows the start, each entry, and then what comes after the last line.
    fn list(&mut self) -> Listing {
        let at = text::put_text(self.out, 0, names(self.traced.module));
        self.listing.at = put_held(self.out, at, 0, self.traced);
        for _ in 0..stdio::TURNS {
            if !self.listing.more {
                break;
            }
            self.turn();
        }
        put_last(self.rt, self.out, self.listing, self.traced, self.memory)
    }
}

// The listing behind its beginning; a refused head is its fault line alone.
fn list(
    rt: &HostRuntime,
    buf: &mut [u8],
    out: &mut [u8],
    memory: &mut [u32],
    first: Listing,
) -> Listing
    requires { first.have ≤ length buf.old }
{
    if !first.more {
        return first;
    }
    let (which, head) = match head_in(&buf[..first.have]) {
        Ok(named) => named,
        Err(fault) => return first.fault(out, fault.number()),
    };
    let lent = modules::lent(which, head.values, memory.len());
    let memory = &mut memory[..lent];
    let traced = modules::begin(which, head.values, memory);
    let listing = Listing {
        used: head.after,
        ..first
    };
    let mut course = Course {
        rt,
        buf,
        out,
        memory,
        listing,
        traced,
        entries: 0,
    };
    course.list()
}

// Begins the listing: reads on until the head is whole or refused, or the input has ended, or a read fails.
fn begun(rt: &HostRuntime, buf: &mut [u8]) -> Listing
    ensures { result.have ≤ length buf.old }
{
    let mut l = Listing::begin(0);
    for _ in 0..stdio::TURNS {
        if !l.more || l.ended || !matches!(head_in(&buf[..l.have]), Err(Fault::Ends)) {
            break;
        }
        l = l.read_on(rt, buf);
    }
    l
}

// The whole listing.
fn run(rt: &HostRuntime, buf: &mut [u8], out: &mut [u8], memory: &mut [u32]) {
    let first = begun(rt, buf);
    let last = list(rt, buf, out, memory, first);
    last.close(rt, out);
}

// Sets the words to 1, 2, 3 and so on.
fn count_up(memory: &mut [u32])
    requires { length memory.old ≤ 40000 }
    ensures { memory.new ≡ up_from (length memory.old) 1 }
{
    for (k, word) in memory.iter_mut().enumerate() {
        *word = (k + 1) as u32;
    }
}

// The two buffers, of 64 KiB each, and the words that a V830 may be lent.
fn main(rt: HostRuntime) {
    let mut buf = [0u8; 65536];
    let mut out = [0u8; 65536];
    let mut memory = [0u32; 40000];
    count_up(&mut memory);
    run(&rt, &mut buf, &mut out, &mut memory);
}
