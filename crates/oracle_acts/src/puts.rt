// Kind 10, which is no call. It puts the clocks on, which stands for a long silence, or a field of the record to its
// limit or past it, for the records that are broken. What is put is the number at 1; it is of the channel at 2 and of the
// voice or the phrase at 3. By the number n at 8 a field comes to stand n past its limit (past the clock, the data length or the
// capacity), or is n; a float is read at 12, the length of a ramp or of a phrase at 16.
use channel::{Channel, Head};
use clip::Clip;
use oracle_lines::field::{Record, f32_at, usize_at};
use phrases::Phrase;
use recorder::State;
use sampler::Sampler;
use voice::Voice;
use volume::Volume;

// What to put: n past a limit, or x; m is the length of a ramp or of a phrase.
#[derive(Clone, Copy)]
struct Order {
    what: u8,
    voice: u8,
    n: usize,
    m: usize,
    x: f32,
}

// 0 the clocks, 1 the channel count, 2 the capacity; the others are of one channel, the first or the second.
pub fn put(s: &mut Sampler, fields: &Record) {
    let p = order_of(fields);
    match p.what {
        0 => put_on(s, p.n),
        1 => s.count = p.n,
        2 => s.capacity = p.n,
        _ => {
            let capacity = s.capacity;
            let j = if fields[2] == 0 { 0 } else { 1 };
            put_channel(&mut s.channels[j], capacity, p);
        }
    }
}

fn order_of(fields: &Record) -> Order {
    Order {
        what: fields[1],
        voice: fields[3],
        n: usize_at(fields, 8),
        m: usize_at(fields, 16),
        x: f32_at(fields, 12),
    }
}

// Puts every clock on by n, but no further than its end.
fn put_on(s: &mut Sampler, n: usize) {
    for c in s.channels.iter_mut() {
        c.head.now = later(c.head.now, n);
    }
}

fn later(now: usize, n: usize) -> usize {
    now.saturating_add(n).min(channel::LAST_TIME).max(now)
}

// 3 the voice count, 4 to 7 and 14 of its head, 15 the number that is chosen, 17 a phrase, the others of a voice.
fn put_channel(c: &mut Channel, capacity: usize, p: Order) {
    match p.what {
        3 => c.count = p.n,
        4..=7 | 14 => put_head(&mut c.head, capacity, p),
        15 => renumber(c, (p.n % 256) as u8),
        17 => put_phrase(c, p),
        _ => put_in_voices(c, p),
    }
}

// The recording under another number, whose own phrase is lost. That which it had has none.
fn renumber(c: &mut Channel, k: u8) {
    let old = c.head.chosen as usize;
    if old < 8 {
        c.table[old] = Phrase::none();
    }
    c.head.chosen = k;
}

// A phrase of m samples from n on. A channel with one phrase has an empty table then, which is looked at.
fn put_phrase(c: &mut Channel, p: Order) {
    if p.voice == c.head.chosen {
        c.head.start = p.n;
        c.head.data_len = p.m;
        return;
    }
    if !c.several {
        c.table = [Phrase::none(); 8];
        c.several = true;
    }
    let k = p.voice as usize;
    if k < 8 {
        c.table[k] = Phrase {
            start: p.n,
            length: p.m,
        };
    }
}

// 4 the data length past the capacity, 5 the write place past the data length, 6 the clock past 2^48, 7 a ramp of
// pass-through, 14 request 7/12's setting.
fn put_head(h: &mut Head, capacity: usize, p: Order) {
    match p.what {
        4 => h.data_len = capacity.wrapping_add(p.n),
        5 => {
            h.recorder.state = State::Triggered {
                write: h.data_len.wrapping_add(p.n),
            }
        }
        6 => h.now = channel::LAST_TIME.wrapping_add(p.n),
        14 => h.interpolates = p.n != 0,
        _ => h.passthru_volume = ramp(h.now, p),
    }
}

// A ramp of m samples that begins n past the clock.
fn ramp(now: usize, p: Order) -> Volume {
    let start = now.wrapping_add(p.n);
    Volume::Linear {
        time_start: start,
        time_end: start.wrapping_add(p.m),
        value_start: 0.0,
        value_end: 1.0,
    }
}

fn put_in_voices(c: &mut Channel, p: Order) {
    let now = c.head.now;
    let i = p.voice as usize;
    if i < 32 {
        put_voice(&mut c.voices[i], now, p);
    }
}

// 9 `finished_at` past the clock, 10 a ramp, 16 its phrase; the others are of its clip.
fn put_voice(v: &mut Voice, now: usize, p: Order) {
    let past = now.wrapping_add(p.n);
    match p.what {
        9 => v.finished_at = past,
        10 => v.volume = ramp(now, p),
        16 => v.phrase = (p.n % 256) as u8,
        _ => put_clip(&mut v.clip2, past, p),
    }
}

// 8 `since` past the clock, 11 the length, 12 the data length, 13 the start.
fn put_clip(c: &mut Clip, past: usize, p: Order) {
    match p.what {
        8 => c.since = past,
        11 => c.length = p.x,
        12 => c.data_length = p.x,
        _ => c.start = p.x,
    }
}
