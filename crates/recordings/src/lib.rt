// Recordings out and in as WAVE files: the sampler's two calls of request 10/12, with their refusals, by value and by
// what is seen of a record. Each takes every value of its arguments, and equals a definition in specs/. On a refusal the
// record and what is lent with it hold what they held.
#![tactic(auto)]

ghost use Rattle.std.specs.Prelude.{◌≡◌, true, length, Ok};
ghost use Rattle.sampler.specs.Refusals.{good_sampler};
ghost use Rattle.questions.specs.Sights.{sound_in};
ghost use Rattle.recordings.specs.Waves.{
  write_wave_of,
  wave_after,
  bad_file,
  held_in,
  read_rows,
  read_judged,
  read_wave_of,
  beginnings_in,
  read_memory,
};
ghost use Rattle.recordings.specs.Sights.{
  starts_seen,
  layout_seen,
  records_seen,
  differ_seen,
  write_judged_seen,
  write_seen,
  wave_left,
  short_seen,
  read_judged_seen,
  beginnings_seen,
  loading_seen,
  memory_left,
};

use channel::Ask;
use phrases::Beside;
use questions::Seen;
use refusals::Refusal;
use sampler::Sampler;
use wave::{Judged, Layout, Starts, Wave};

// What a read asks of a record: what is seen of it, and what each channel's other phrases say to its recording.
#[derive(Clone, Copy)]
pub struct Surveyed {
    pub seen: Seen,
    pub first: Beside,
    pub second: Beside,
}

// The rate of a file that is read, and how many samples it has for each channel.
#[derive(Clone, Copy)]
pub struct Loading {
    pub rate: u32,
    pub samples: usize,
}

// What a read leaves, and the file's rate. It stays a struct: on a refusal the record is handed back as it was.
#[derive(Clone, Copy)]
pub struct ReadAnswer {
    pub sampler: Sampler,
    pub read: Result<u32, Refusal>,
}

// Where what is read for the second channel begins in the memory. One that isn't in use may have any start.
fn second_begins(s: Sampler) -> usize
    requires { good_sampler s ≡ true }
    ensures { result ≡ (beginnings_in s).second }
{
    if s.count == 2 {
        let c = s.channels[1];
        return s.capacity + c.begins();
    }
    0
}

// Where what is read for each channel begins.
fn beginnings(s: Sampler) -> Starts
    requires { good_sampler s ≡ true }
    ensures { result ≡ beginnings_in s }
{
    let one = s.channels[0];
    Starts {
        first: one.begins(),
        second: second_begins(s),
    }
}

// Where the second channel's recording begins in the memory. One that isn't in use may have any start.
fn second_start(t: Seen) -> usize
    requires { sound_in t ≡ true }
    ensures { result ≡ (starts_seen t).second }
{
    if t.count == 2 {
        let head = t.second;
        return t.capacity + head.start;
    }
    0
}

// Where the recordings stand in the memory; they are as long as channel 0's.
fn layout(t: Seen) -> Layout
    requires { sound_in t ≡ true }
    ensures { result ≡ layout_seen t }
{
    let head = t.first;
    Layout {
        channels: t.count,
        samples: head.data_len,
        starts: Starts {
            first: head.start,
            second: second_start(t),
        },
    }
}

// Whether a channel in use records, and whether one has another length than channel 0.
fn any_recording(t: Seen) -> bool
    ensures { result ≡ records_seen t }
{
    let head = t.first;
    let other = t.second;
    head.is_recording() | ((t.count == 2) & other.is_recording())
}

fn lengths_differ(t: Seen) -> bool
    ensures { result ≡ differ_seen t }
{
    let head = t.first;
    let other = t.second;
    (t.count == 2) & (other.data_len != head.data_len)
}

fn write_judged(t: Seen, room: usize, size: usize) -> Result<(), Refusal>
    ensures { result ≡ write_judged_seen t room size }
{
    Refusal::Broken.when(!questions::good_in(t, size))?;
    let l = layout(t);
    Refusal::Recording.when(any_recording(t))?;
    Refusal::OtherChannels.when(lengths_differ(t))?;
    let bytes = 58 + 4 * (l.channels * l.samples);
    Refusal::ShortList.when(room < bytes)
}

// Writes the recordings of all channels as a file to the front of `out`, and answers how many bytes it has.
pub fn write_in(t: Seen, rate: u32, memory: &[u32], out: &mut [u8]) -> Result<usize, Refusal>
    ensures value { result ≡ write_seen t (length out.old) (length memory.now) }
    ensures out_after { out.new ≡ wave_left t rate memory.now out.old }
{
    write_judged(t, out.len(), memory.len())?;
    Ok(wave::write(rate, layout(t), memory, out))
}

pub fn write_wave(s: Sampler, rate: u32, memory: &[u32], out: &mut [u8]) -> Result<usize, Refusal>
    ensures value { result ≡ write_wave_of s (length out.old) (length memory.now) }
    ensures out_after { out.new ≡ wave_after s rate memory.now out.old }
{
    write_in(questions::look(s), rate, memory, out)
}

// What a file holds; of a bad one nothing.
fn held(judged: Judged) -> Wave
    ensures { result ≡ held_in judged }
{
    match judged {
        Judged::Is(w) => w,
        Judged::Refused => Wave {
            rate: 0,
            channels: 0,
            samples: 0,
            first: 0,
        },
    }
}

fn bad_file(judged: Judged) -> bool
    ensures { result ≡ bad_file judged }
{
    match judged {
        Judged::Is(_) => false,
        Judged::Refused => true,
    }
}

// The rows of a read, by what stands against it.
fn read_rows(
    good: bool,
    recording: bool,
    judged: Judged,
    count: usize,
    short: bool,
) -> Result<(), Refusal>
    ensures { result ≡ read_rows good recording judged count short }
{
    Refusal::Broken.when(!good)?;
    Refusal::Recording.when(recording)?;
    Refusal::BadWave.when(bad_file(judged))?;
    Refusal::OtherChannels.when(held(judged).channels != count)?;
    Refusal::NoRoom.when(short)
}

fn read_judged(s: Sampler, judged: Judged, size: usize) -> Result<(), Refusal>
    ensures { result ≡ read_judged s judged size }
{
    let against = s.against(Ask::Samples(held(judged).samples));
    read_rows(
        s.good_with(size),
        against.blocked,
        judged,
        s.count,
        against.short,
    )
}

// Replaces the recording of each channel by the file's.
pub fn read_wave(s: Sampler, file: &[u8], memory: &mut [u32]) -> ReadAnswer
    ensures value { result ≡ read_wave_of s file.now (length memory.old) }
    ensures memory_after { memory.new ≡ read_memory s file.now memory.old }
{
    let judged = wave::judge(file);
    if let Err(refusal) = read_judged(s, judged, memory.len()) {
        return ReadAnswer {
            sampler: s,
            read: Err(refusal),
        };
    }
    wave::load(file, beginnings(s), memory);
    let w = held(judged);
    ReadAnswer {
        sampler: s.loaded(w.samples),
        read: Ok(w.rate),
    }
}

// Whether one of the channels in use may not hold so many samples.
fn too_many(t: Surveyed, samples: usize) -> bool
    ensures { result ≡ short_seen samples t }
{
    let seen = t.seen;
    let ask = Ask::Samples(samples);
    let one = channel::held_against(ask, seen.first, 0, false, t.first, seen.capacity);
    let two = channel::held_against(ask, seen.second, 0, false, t.second, seen.capacity);
    one.short | ((seen.count == 2) & two.short)
}

fn judged_in(t: Surveyed, judged: Judged, size: usize) -> Result<(), Refusal>
    ensures { result ≡ read_judged_seen t judged size }
{
    let w = held(judged);
    let good = questions::good_in(t.seen, size);
    let recording = any_recording(t.seen);
    let short = too_many(t, w.samples);
    read_rows(good, recording, judged, t.seen.count, short)
}

// Where what is read for the second channel begins in the memory. What is seen of a good record doesn't wrap.
fn second_in(t: Surveyed) -> usize
    ensures { result ≡ (beginnings_seen t).second }
{
    let seen = t.seen;
    if seen.count == 2 {
        let head = seen.second;
        let other = t.second;
        return std::num::wrapping_add_usize(seen.capacity, head.begins(other.behind));
    }
    0
}

fn beginnings_in(t: Surveyed) -> Starts
    ensures { result ≡ beginnings_seen t }
{
    let seen = t.seen;
    let head = seen.first;
    let one = t.first;
    Starts {
        first: head.begins(one.behind),
        second: second_in(t),
    }
}

// Loads the file's words into the memory, where it isn't refused: all of a read but what it does to the record.
pub fn read_in(t: Surveyed, file: &[u8], memory: &mut [u32]) -> Result<Loading, Refusal>
    ensures value { result ≡ loading_seen t file.now (length memory.old) }
    ensures memory_after { memory.new ≡ memory_left t file.now memory.old }
{
    let judged = wave::judge(file);
    judged_in(t, judged, memory.len())?;
    wave::load(file, beginnings_in(t), memory);
    let w = held(judged);
    Ok(Loading {
        rate: w.rate,
        samples: w.samples,
    })
}
