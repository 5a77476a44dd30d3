// The text of a sampler's record, for programs that print it: a line for each channel, and after it one for each phrase
// with samples that isn't chosen and one for each of its voices. Numbers are in hexadecimal, floats by their bits, and a
// NaN is 7FC00000. Of a clip's shift a zero of either sign is written alike.
ghost use Rattle.std.specs.Prelude.{◌≡◌, ◌+◌, ◌≤◌, length, min};

use channel::{Channel, Head, places};
use clip::{Clip, Mode};
use oracle_lines::line::Text;
use phrases::Phrase;
use recorder::{Recorder, State};
use sampler::Sampler;
use voice::Voice;

fn put_mode(out: &mut Text, mode: Mode)
    ensures { length out.new ≡ min (length out.old + 2) 65536 }
{
    match mode {
        Mode::Loop => out.put::<1>(0),
        Mode::PingPong => out.put::<1>(1),
    }
}

// A float that compares by value.
fn put_place(out: &mut Text, x: f32)
    ensures { length out.new ≡ min (length out.old + 9) 65536 }
{
    out.put_f32(if x == 0.0 { 0.0 } else { x })
}

fn put_clip(out: &mut Text, c: Clip)
    ensures { length out.new ≡ min (length out.old + 64) 65536 }
{
    out.put_usize(c.since);
    out.put_f32(c.start);
    out.put_f32(c.speed);
    out.put_f32(c.length);
    out.put_f32(c.data_length);
    put_place(out, c.shift);
    put_mode(out, c.mode)
}

fn put_levels(out: &mut Text, v: Voice)
    ensures { length out.new ≡ min (length out.old + 36) 65536 }
{
    out.put_f32(v.loop_start_percent);
    out.put_f32(v.played);
    out.put_f32(v.last_sample_value);
    out.put_f32(v.speed)
}

fn put_note(out: &mut Text, v: Voice)
    ensures { length out.new ≡ min (length out.old + 13) 65536 }
{
    out.put_u8(v.note.note);
    out.put_u8(v.note.channel);
    out.put_bool(v.finished);
    out.put_bool(v.is_at_zero_crossing);
    out.put_u8(v.phrase)
}

fn put_voice(out: &mut Text, v: Voice)
    ensures { length out.new ≡ min (length out.old + 203) 65536 }
{
    out.tag(b'V');
    out.put_usize(v.finished_at);
    out.put_usize(v.last_sample_index);
    put_clip(out, v.clip2);
    out.put_volume(v.volume);
    put_levels(out, v);
    put_note(out, v);
    out.end()
}

// Whether it records, and its write place (0 while idle).
fn put_state(out: &mut Text, state: State)
    ensures { length out.new ≡ min (length out.old + 19) 65536 }
{
    let (records, write) = match state {
        State::Triggered { write } => (true, write),
        State::Idle => (false, 0),
    };
    out.put_bool(records);
    out.put_usize(write)
}

fn put_recorder(out: &mut Text, r: Recorder)
    ensures { length out.new ≡ min (length out.old + 37) 65536 }
{
    put_state(out, r.state);
    out.put_u32(r.skipped_samples);
    out.put_u32(r.incorrect_state)
}

// Where the recording begins. Of an empty one that is said only while it is recorded: before, nothing begins there.
fn begins(h: Head) -> usize {
    if (h.data_len == 0) & !h.is_recording() {
        0
    } else {
        h.start
    }
}

// A channel without its voices but for their count.
fn put_head(out: &mut Text, h: Head, count: usize)
    ensures { length out.new ≡ min (length out.old + 168) 65536 }
{
    out.tag(b'C');
    out.put_usize(h.now);
    out.put_u8(h.chosen);
    out.put_usize(begins(h));
    out.put_usize(h.data_len);
    put_recorder(out, h.recorder);
    out.put_bool(h.passthru_on);
    out.put_volume(h.passthru_volume);
    out.put_bool(h.interpolates);
    out.put_usize(count);
    out.end()
}

// A line for the phrase of that number, where it has samples and isn't chosen: its number, where it begins, its length.
fn put_phrase(out: &mut Text, k: u8, chosen: u8, p: Phrase)
    ensures { length out.new ≤ length out.old + 38 }
{
    if (k == chosen) | p.is_empty() {
        return;
    }
    out.tag(b'P');
    out.put::<1>(k as u64);
    out.put_usize(p.start);
    out.put_usize(p.length);
    out.end()
}

fn put_channel(out: &mut Text, c: &Channel)
    ensures { length out.new ≤ length out.old + 6968 }
{
    put_head(out, c.head, c.count);
    for k in 0..8 {
        put_phrase(out, k, c.head.chosen, c.phrase_at(k));
    }
    for voice in &c.voices[..places(c.count)] {
        put_voice(out, *voice);
    }
}

// What is in use of the record: the channels below the count, each with the voices below its count.
pub fn put_sampler(out: &mut Text, s: &Sampler)
    ensures { length out.new ≤ length out.old + 13936 }
{
    for c in &s.channels[..s.count.min(2)] {
        put_channel(out, c);
    }
}
