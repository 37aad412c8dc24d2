// The number of an entry, counted up as its line shows it, so that its digits are not divided out line by line.
ghost use Rattle.std.specs.Prelude.{◌≡◌, ◌+◌, ◌%◌, ◌^◌, ◌<◌, ◌≤◌, [], ◌∷◌, length};
ghost use Rattle.text.specs.Line.{line, put_in, after_in};
ghost use Rattle.text.specs.Text.{put, decimal};
ghost use Rattle.night.specs.Tallies.{word_of, bytes_of};

// A number, its last eight digits as the bytes of a word, the highest in the highest, and how many it has.
#[derive(Clone, Copy, PartialEq, Eq, Debug)]
pub struct Tally {
    pub number: u64,
    pub word: u64,
    pub figures: usize,
    ghost right: { (word ≡ word_of 8 number) × (figures ≡ length (decimal number)) },
}

// The last four digits of a number, as the bytes of a word.
fn four(n: u64) -> u64
    ensures { (result ≡ word_of 4 n) × (result < 4294967296) }
{
    let tens = n / 10;
    let hundreds = tens / 10;
    let thousands = hundreds / 10;
    let high = (48 + thousands % 10) * 256 + (48 + hundreds % 10);
    (high * 256 + (48 + tens % 10)) * 256 + (48 + n % 10)
}

// Puts the bytes of a word where there is room for them; one copy_from_slice of them took eleven instructions more.
fn put_word(out: &mut [u8], at: usize, word: u64)
    requires { at + 8 ≤ length out.old }
    ensures { out.new ≡ put out.old at (bytes_of 8 word) }
{
    let [a, b, c, d, e, f, g, h] = word.to_be_bytes();
    out[at] = a;
    out[at + 1] = b;
    out[at + 2] = c;
    out[at + 3] = d;
    out[at + 4] = e;
    out[at + 5] = f;
    out[at + 6] = g;
    out[at + 7] = h;
}

impl Tally {
    // The tally of a number.
    pub(crate) fn counted_to(number: u64) -> Tally
        ensures { result.number ≡ number }
    {
        Tally {
            number,
            word: four(number / 10000) * 4294967296 + four(number),
            figures: text::figures(number),
        }
    }

    // That of the next number: its last digit alone, or the last two where that goes round, or all where both do.
    pub(crate) fn counted_up(self) -> Tally
        ensures { result.number ≡ (self.number + 1) % 2 ^ 64 }
    {
        let number = self.number.wrapping_add(1);
        if number == 0 {
            return Tally::counted_to(number);
        }
        if self.word % 256 != 57 {
            return Tally {
                number,
                word: self.word + 1,
                figures: self.figures,
            };
        }
        if self.figures < 2 || self.word / 256 % 256 == 57 {
            return Tally::counted_to(number);
        }
        Tally {
            number,
            word: self.word + 247,
            figures: self.figures,
        }
    }

    // Puts the line of the entry that is counted, where 63 bytes are free, and answers the place after it; elsewhere it
    // puts nothing.
    pub(crate) fn put_entry(self, out: &mut [u8], at: usize, answer: u32, value: u32) -> usize
        ensures { (result ≡ after_in 63 out.old at (line (self.number ∷ answer ∷ value ∷ []))) × (out.new ≡ put_in 63 out.old at (line (self.number ∷ answer ∷ value ∷ []))) }
    {
        if self.figures < 3 {
            return text::put_line(out, at, &[self.number, answer as u64, value as u64]);
        }
        self.put_longer(out, at, answer, value)
    }

    // The same of a number with three digits or more: eight bytes at once, of which what follows the number covers the
    // rest.
    fn put_longer(self, out: &mut [u8], at: usize, answer: u32, value: u32) -> usize
        requires { 3 ≤ self.figures }
        ensures { (result ≡ after_in 63 out.old at (line (self.number ∷ answer ∷ value ∷ []))) × (out.new ≡ put_in 63 out.old at (line (self.number ∷ answer ∷ value ∷ []))) }
    {
        if self.figures > 8 {
            return text::put_line(out, at, &[self.number, answer as u64, value as u64]);
        }
        if !text::fits(out, at, 63) {
            return at;
        }
        put_word(out, at, self.word << (64 - 8 * self.figures));
        let blank = text::put_text(out, at + self.figures, b" ");
        text::put_line(out, blank, &[answer as u64, value as u64])
    }
}
