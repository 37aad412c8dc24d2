#![tactic(auto)]

// The multi-event buffer: a lent stretch of words, used round and round, and what is known of it.
ghost use Rattle.std.specs.Prelude.{◌≡◌, ◌%◌, ◌<◌, ◌≤◌, length, get_or};
ghost use Rattle.meb.specs.Ring.{lent, behind, put_round};
ghost use Rattle.meb.specs.Stores.{empty_of, emptied, fits, free, handed_of, put_of};

use layout::Words;

// The event memory as the module knows it: its length, the place of the oldest word, and the words stored.
#[derive(Clone, Copy, PartialEq, Eq, Debug)]
pub struct Store {
    pub capacity: Words,
    pub first: u32,
    pub stored: Words,
}

// What is handed out: the oldest word, and what is known of the memory without it.
#[derive(Clone, Copy, PartialEq, Eq, Debug)]
pub struct Handed {
    pub word: u32,
    pub store: Store,
}

impl Store {
    // A memory of so many words with none stored.
    pub fn empty(capacity: u32) -> Store
        ensures { result ≡ empty_of capacity }
    {
        Store {
            capacity: Words(capacity),
            first: 0,
            stored: Words(0),
        }
    }

    // With no words stored.
    pub fn emptied(self) -> Store
        ensures { result ≡ emptied self }
    {
        Store::empty(self.capacity.0)
    }

    // Whether capacity, first place and stored words are within their bounds.
    pub fn fits(self) -> bool
        ensures { result ≡ fits self }
    {
        1 <= self.capacity.0
            && self.capacity.0 <= 32768
            && self.first < self.capacity.0
            && self.stored.0 <= self.capacity.0
    }

    // The words that are free.
    pub fn free(self) -> Words
        ensures { result ≡ free self }
    {
        Words(self.capacity.0.saturating_sub(self.stored.0))
    }

    // Hands out the oldest word and removes it; nothing, where none is stored.
    pub fn hand_out(self, memory: &[u32]) -> Option<Handed>
        ensures { result ≡ handed_of self (lent memory.now) }
    {
        if self.stored.0 == 0 {
            return None;
        }
        let store = Store {
            first: place_behind(self.first, self.capacity.0),
            stored: Words(self.stored.0 - 1),
            ..self
        };
        Some(Handed {
            word: word_at(memory, self.first as usize),
            store,
        })
    }

    // Puts an event's words behind those stored, if so many are free; else nothing of it.
    pub fn put(self, memory: &mut [u32], words: &[u32]) -> Store
        ensures { (result ≡ (put_of self (lent memory.old) words.now).store) × (memory.new ≡ (put_of self (lent memory.old) words.now).memory.words) }
    {
        let room = self.free();
        if (room.0 as usize) < words.len() {
            return self;
        }
        if !memory.is_empty() {
            put_round(memory, self.first as usize + self.stored.0 as usize, words);
        }
        Store {
            stored: Words(self.stored.0 + words.len() as u32),
            ..self
        }
    }
}

// The place behind a place in a memory of so many words.
fn place_behind(at: u32, capacity: u32) -> u32
    ensures { result ≡ behind capacity at }
{
    if at < capacity && at + 1 < capacity {
        at + 1
    } else {
        0
    }
}

// The word at a place of the memory, 0 where there is no such place.
fn word_at(memory: &[u32], at: usize) -> u32
    ensures { result ≡ get_or memory.now at 0 }
{
    memory.get(at).copied().unwrap_or(0)
}

// A number's place in a memory of that many words.
fn place(n: usize, capacity: usize) -> usize
    requires { 0 < capacity }
    ensures { (result ≡ n % capacity) × (result < capacity) }
{
    // the quotient is taken only past the memory's end: the replay puts an event at each trigger (docs/SPEED.md)
    if n < capacity { n } else { n % capacity }
}

// Puts words into a memory from a place on, round past its end.
fn put_round(memory: &mut [u32], from: usize, words: &[u32])
    requires { (0 < length memory.old) × (from ≤ 8589934592) × (length words.now ≤ 4294967295) }
    ensures { memory.new ≡ put_round (length memory.old) memory.old from words.now }
{
    for (j, word) in words.iter().enumerate() {
        let at = place(from + j, memory.len());
        memory[at] = *word;
    }
}
