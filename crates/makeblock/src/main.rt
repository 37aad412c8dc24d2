#![tactic(auto)]

// Writes one event of a V830 to lent words and shows them.
ghost use Rattle.std.specs.Prelude.{◌≡◌, ◌≤◌, length};
ghost use Rattle.head.specs.Heads.{up_from};
ghost use Rattle.makeblock.specs.Asked.{limits_of, event_of};

use head::Head;
use layout::{Event, Settings};
use stdio::{Amiss, Listing};

// The limits of the head's numbers: header, short, enable, room, and 35 that have none.
fn limits() -> [u32; 39]
    ensures { result ≡ limits_of }
{
    let mut limits = [4294967295u32; 39];
    limits[0] = 1;
    limits[1] = 1;
    limits[3] = 64;
    limits
}

// The event of a head.
fn event_of(head: Head) -> Event
    ensures { result ≡ event_of head }
{
    let values = head.values;
    let mut counts = [0; 32];
    counts.copy_from_slice(&values[7..39]);
    Event {
        geo: values[4],
        source: values[5],
        trigger: values[6],
        counts,
    }
}

// How many words are lent: the head's fourth number, which its limit keeps within 64.
fn room_of(head: Head) -> usize
    ensures { result ≤ 64 }
{
    (head.values[3] as usize).min(64)
}

// The words before the call: 1, 2, 3 and so on.
fn first_words() -> [u32; 64]
    ensures { result ≡ up_from 64 1 }
{
    let mut words = [0u32; 64];
    for (i, word) in words.iter_mut().enumerate() {
        *word = i as u32 + 1;
    }
    words
}

// The words as numbers of a line.
fn numbers_of(words: [u32; 64]) -> [u64; 64]
    ensures { result ≡ words }
{
    let mut numbers = [0u64; 64];
    text::put_words(&mut numbers, 0, &words);
    numbers
}

// Puts the line of the first `room` words, which is empty where there are none.
fn put_words(out: &mut [u8], at: usize, words: [u32; 64], room: usize) -> usize
    requires { room ≤ 64 }
{
    if room == 0 {
        return text::put_text(out, at, b"\n");
    }
    let numbers = numbers_of(words);
    text::put_line(out, at, &numbers[..room])
}

// Puts the two lines of a head.
fn put_block(out: &mut [u8], first: Listing, head: Head) -> Listing {
    let settings = Settings {
        header: head.values[0] == 1,
        short: head.values[1] == 1,
        enable: head.values[2],
    };
    let room = room_of(head);
    let mut words = first_words();
    let answer = layout::write_event(settings, event_of(head), &mut words[..room]);
    let reply = layout::numbered(answer);
    let at = text::put_line(out, 0, &[reply.number as u64, reply.value as u64]);
    let l = Listing {
        at: put_words(out, at, words, room),
        ..first
    };
    match answer {
        Ok(_) => l,
        Err(why) => l.stop(Some(Amiss::Refused(why.number(), 0))),
    }
}

// What is written behind the listing's beginning; a refused head is its fault line alone.
fn write(buf: &[u8], out: &mut [u8], first: Listing, limits: [u32; 39]) -> Listing
    requires { first.have ≤ length buf.now }
{
    if !first.more {
        return first;
    }
    let have = first.have;
    match head::read_head(&buf[..have], &limits) {
        Ok(head) => put_block(out, first, head),
        Err(fault) => first.fault(out, fault.number()),
    }
}

// What is written.
fn run(rt: &HostRuntime, buf: &mut [u8], out: &mut [u8]) {
    let limits = limits();
    let first = head::begin(rt, buf, &limits);
    let last = write(buf, out, first, limits);
    last.close(rt, out);
}

// The two buffers, of 64 KiB each.
fn main(rt: HostRuntime) {
    let mut buf = [0u8; 65536];
    let mut out = [0u8; 65536];
    run(&rt, &mut buf, &mut out);
}
