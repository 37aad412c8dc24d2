// The block writer.
ghost use Rattle.std.specs.Prelude.{◌≡◌, ◌+◌, ◌<◌, ◌≤◌, length};
ghost use Rattle.layout.specs.Length.{event_length, enabled_channels};
ghost use Rattle.layout.specs.Layout.{header_of, datum_of, data_of, event_words};
ghost use Rattle.layout.specs.Writer.{fields_fit, fields_zero, zero_if_disabled, count_fits, counts_fit, writable, write_answer, write_words};
ghost use Rattle.std.proofs.lemmas.List.Edits.{sets};

use crate::channels::Channels;
use crate::{Answer, Event, Refusal, Settings, enabled_channels};

// Writes an event to lent words: its own words and no others, none where it refuses.
#[tactic(auto, unfolding(crate::specs::Writer::write_answer, crate::specs::Writer::write_words))]
pub fn write_event(settings: Settings, event: Event, words: &mut [u32]) -> Answer
    ensures { (result ≡ write_answer settings event words.old) × (words.new ≡ write_words settings event words.old) }
{
    let length = settings.event_length();
    if length.0 == 0 {
        return Err(Refusal::NoWords);
    }
    if !is_writable(settings, event) {
        return Err(Refusal::NotAnEvent);
    }
    if words.len() < length.0 as usize {
        return Err(Refusal::TooFewLent);
    }
    put_event(settings, event, words);
    Ok(length)
}

// Whether an event can be written with these settings.
#[tactic(auto, unfolding(crate::specs::Writer::writable))]
fn is_writable(settings: Settings, event: Event) -> bool
    ensures { result ≡ writable settings event }
{
    fields_fit(event) && (settings.header || fields_are_zero(event)) && counts_fit(settings, event)
}

// Whether the header's fields are within their bits.
fn fields_fit(event: Event) -> bool
    ensures { result ≡ fields_fit event }
{
    event.geo <= 31 && event.source <= 3 && event.trigger <= 65535
}

// Whether the header's fields are 0, as they must be without header.
fn fields_are_zero(event: Event) -> bool
    ensures { result ≡ fields_zero event }
{
    event.geo == 0 && event.source == 0 && event.trigger == 0
}

// Whether every count can be written.
fn counts_fit(settings: Settings, event: Event) -> bool
    ensures { result ≡ counts_fit settings.short settings.enable event.counts }
{
    let mut mask = settings.enable;
    for count in event.counts {
        if !count_fits(settings.short, mask % 2, count) {
            return false;
        }
        mask /= 2;
    }
    true
}

// Whether a channel's count can be written, `bit` being its bit of Channel Enable.
fn count_fits(short: bool, bit: u32, count: u32) -> bool
    ensures { result ≡ count_fits short bit count }
{
    // tests one after the other, here and below: as one expression of `&&` and `||` each they cost the replay's inner
    // loop 15 % more instructions
    if !short {
        return is_zero_if_disabled(bit, count);
    }
    if count >= 67108864 {
        return false;
    }
    is_zero_if_disabled(bit, count)
}

// Whether a disabled channel's count is 0.
fn is_zero_if_disabled(bit: u32, count: u32) -> bool
    ensures { result ≡ zero_if_disabled bit count }
{
    if bit == 0 {
        return count == 0;
    }
    true
}

// Writes the words of an event where there is room for them.
fn put_event(settings: Settings, event: Event, words: &mut [u32])
    requires { (event.geo ≤ 31) × (event.source ≤ 3) × (event.trigger ≤ 65535) × (event_length settings ≤ length words.old) }
    ensures { words.new ≡ sets words.old 0 (event_words settings event) }
{
    if settings.header {
        words[0] = header(settings, event);
    }
    put_data(settings, event, words, settings.data_place());
}

// The header of an event.
fn header(settings: Settings, event: Event) -> u32
    requires { (event.geo ≤ 31) × (event.source ≤ 3) × (event.trigger ≤ 65535) }
    ensures { result ≡ header_of settings event }
{
    let ones = enabled_channels(settings.enable);
    (event.geo << 27) + (1 << 26) + (ones << 18) + (event.source << 16) + event.trigger
}

// Writes the data from a place on.
fn put_data(settings: Settings, event: Event, words: &mut [u32], from: usize)
    requires { from + length (enabled_channels settings.enable) ≤ length words.old }
    ensures { words.new ≡ sets words.old from (data_of settings.short event.counts (enabled_channels settings.enable)) }
{
    for (at, channel) in Channels(settings.enable).enumerate() {
        let count = event.counts[channel as usize];
        words[from + at] = datum(settings.short, channel, count);
    }
}

// The datum of a channel.
fn datum(short: bool, channel: u32, count: u32) -> u32
    requires { channel < 32 }
    ensures { result ≡ datum_of short channel count }
{
    if short {
        channel * 134217728 + count % 67108864
    } else {
        count
    }
}
