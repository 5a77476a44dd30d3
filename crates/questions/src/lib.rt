// The questions of the sampler: what its host may ask of one channel, with the refusals of document 01's table. Each
// takes every value of its arguments, and equals a definition in specs/. On a refusal a lent list holds what it held.
#![tactic(auto)]

ghost use Rattle.std.specs.Prelude.{◌≡◌, ◌+◌, ◌^◌, ◌≤◌, not, [], ◌∷◌, map, ltb, length, Ok};
ghost use Rattle.std.specs.Float.{binary32};
ghost use Rattle.std.specs.Float.Ieee.{mul};
ghost use Rattle.std.proofs.lemmas.List.Edits.{sets};
ghost use Rattle.refusals.specs.declared.Refusal.TheVariants.{NoChannel, Broken};
ghost use Rattle.refusals.specs.Refusals.{row};
ghost use Rattle.binary32.specs.Leaves.{as_float, as_whole, floor_of, float_of};
ghost use Rattle.channel.specs.Channels.{live};
ghost use Rattle.sampler.specs.Refusals.{channel_at};
ghost use Rattle.questions.specs.Sights.{
  seen_of,
  head_in,
  frames_in,
  length_in,
  records_in,
  offset_in,
  error_in,
  error_after,
  in_part,
  sound_in,
  good_in,
  waveform_judged_in,
  waveform_in,
  waveform_left,
};
ghost use Rattle.questions.specs.Questions.{
  get_frames_processed_of,
  get_data_len_of,
  is_recording_of,
  get_last_recorded_offset_of,
  print_error_info_of,
  error_text_after,
  notes_of,
  iter_active_notes_of,
  active_notes_after,
  voice_info_of,
  no_info,
  no_infos,
  voice_infos_of,
  get_voice_info_of,
};
ghost use Rattle.questions.specs.Waveforms.{
  squares_of,
  column_of,
  columns_of,
  largest_of,
  get_waveform_summary_of,
  waveform_after,
};

use channel::{Channel, Head};
use common_types::{InitParams, Params};
use recorder::Recorder;
use refusals::Refusal;
use sampler::Sampler;
use voice::Voice;

// The figures of one voice, as parts of the recording.
#[derive(Clone, Copy)]
pub struct VoiceInfo {
    pub start: f32,
    pub end: f32,
    pub pos: f32,
}

impl Default for VoiceInfo {
    ghost is_default = { λ info. info ≡ no_info };

    fn default() -> Self {
        Self {
            start: 0.0,
            end: 0.0,
            pos: 0.0,
        }
    }
}

// The infos are the first `count` of the 32.
#[derive(Clone, Copy)]
pub struct VoiceInfos {
    pub infos: [VoiceInfo; 32],
    pub count: usize,
}

// What the questions of a recording ask of a record: whether it is good, what it says of itself, and the heads of its two
// channels.
#[derive(Clone, Copy)]
pub struct Seen {
    pub good: bool,
    pub count: usize,
    pub capacity: usize,
    pub first: Head,
    pub second: Head,
}

pub fn look(s: Sampler) -> Seen
    ensures { result ≡ seen_of s }
{
    let first = channel_at(s, 0).head;
    let second = channel_at(s, 1).head;
    Seen {
        good: s.good(),
        count: s.count,
        capacity: s.capacity,
        first,
        second,
    }
}

// The rows that each question begins with.
fn rows(good: bool, count: usize, channel: usize) -> Result<(), Refusal>
    ensures { result ≡ row (not good) Broken (row (not (ltb channel count)) NoChannel (Ok tt)) }
{
    Refusal::Broken.when(!good)?;
    Refusal::NoChannel.when(!(channel < count))
}

// Past the last channel it is a new one, which no answer shows.
fn channel_at(s: Sampler, channel: usize) -> Channel
    ensures { result ≡ channel_at s channel }
{
    if channel < 2 {
        return s.channels[channel];
    }
    Channel::new(InitParams {
        auto_passthru: false,
    })
}

// Past the last channel it is the second's, which no answer shows.
#[tactic(auto, unfolding(crate::specs::Sights::head_in))]
fn head_in(t: Seen, channel: usize) -> Head
    ensures { result ≡ head_in t channel }
{
    if channel == 0 { t.first } else { t.second }
}

fn recorder_in(t: Seen, channel: usize) -> Recorder
    ensures { result ≡ (head_in t channel).recorder }
{
    let head = head_in(t, channel);
    head.recorder
}

pub fn frames_in(t: Seen, channel: usize) -> Result<usize, Refusal>
    ensures { result ≡ frames_in t channel }
{
    rows(t.good, t.count, channel)?;
    Ok(head_in(t, channel).now)
}

pub fn get_frames_processed(s: Sampler, channel: usize) -> Result<usize, Refusal>
    ensures { result ≡ get_frames_processed_of s channel }
{
    frames_in(look(s), channel)
}

pub fn length_in(t: Seen, channel: usize) -> Result<usize, Refusal>
    ensures { result ≡ length_in t channel }
{
    rows(t.good, t.count, channel)?;
    Ok(head_in(t, channel).data_len)
}

pub fn get_data_len(s: Sampler, channel: usize) -> Result<usize, Refusal>
    ensures { result ≡ get_data_len_of s channel }
{
    length_in(look(s), channel)
}

pub fn recording_in(t: Seen, channel: usize) -> Result<bool, Refusal>
    ensures { result ≡ records_in t channel }
{
    rows(t.good, t.count, channel)?;
    Ok(recorder_in(t, channel).is_recording())
}

pub fn is_recording(s: Sampler, channel: usize) -> Result<bool, Refusal>
    ensures { result ≡ is_recording_of s channel }
{
    recording_in(look(s), channel)
}

// None where the channel doesn't record.
pub fn offset_in(t: Seen, channel: usize) -> Result<Option<usize>, Refusal>
    ensures { result ≡ offset_in t channel }
{
    rows(t.good, t.count, channel)?;
    Ok(recorder_in(t, channel).last_recorded_offset())
}

pub fn get_last_recorded_offset(s: Sampler, channel: usize) -> Result<Option<usize>, Refusal>
    ensures { result ≡ get_last_recorded_offset_of s channel }
{
    offset_in(look(s), channel)
}

// Writes the error text to the front of the list.
pub fn error_in(t: Seen, channel: usize, text: &mut [u8]) -> Result<usize, Refusal>
    ensures value { result ≡ error_in t channel (length text.old) }
    ensures text_after { text.new ≡ error_after t channel text.old }
{
    rows(t.good, t.count, channel)?;
    recorder_in(t, channel).print_error_info(text)
}

pub fn print_error_info(s: Sampler, channel: usize, text: &mut [u8]) -> Result<usize, Refusal>
    ensures value { result ≡ print_error_info_of s channel (length text.old) }
    ensures text_after { text.new ≡ error_text_after s channel text.old }
{
    error_in(look(s), channel, text)
}

// A finished voice has no note to list.
fn note_count(v: Voice) -> usize
    ensures { result ≡ length (notes_of (v ∷ [])) }
{
    if v.finished { 0 } else { 1 }
}

fn write_note(v: Voice, k: usize, notes: &mut [u64])
    requires { k + length (notes_of (v ∷ [])) ≤ length notes.old }
    ensures { notes.new ≡ sets notes.old k (notes_of (v ∷ [])) }
{
    if v.finished {
        return;
    }
    let note = v.note;
    notes[k] = u64::from(note);
}

fn active_count(c: Channel) -> usize
    ensures { result ≡ length (notes_of (live c)) }
{
    let n = c.count.min(32);
    let mut k = 0;
    for i in 0..n {
        let v = c.voices[i];
        k += note_count(v);
    }
    k
}

fn write_notes(c: Channel, notes: &mut [u64])
    requires { length (notes_of (live c)) ≤ length notes.old }
    ensures { notes.new ≡ sets notes.old 0 (notes_of (live c)) }
{
    let n = c.count.min(32);
    let mut k = 0;
    for i in 0..n {
        let v = c.voices[i];
        write_note(v, k, notes);
        k += note_count(v);
    }
}

// Writes the notes of the unfinished voices to the front of the list.
#[tactic(auto, unfolding(crate::specs::Questions::list_counted, crate::specs::Questions::list_after))]
pub fn iter_active_notes(s: Sampler, channel: usize, notes: &mut [u64]) -> Result<usize, Refusal>
    ensures value { result ≡ iter_active_notes_of s channel (length notes.old) }
    ensures notes_after { notes.new ≡ active_notes_after s channel notes.old }
{
    let c = channel_at(s, channel);
    let count = active_count(c);
    rows(s.good(), s.count, channel)?;
    Refusal::ShortList.when(notes.len() < count)?;
    write_notes(c, notes);
    Ok(count)
}

#[tactic(auto, unfolding(crate::specs::Questions::voice_info_of))]
pub fn voice_info(v: Voice, length: f32, data_length: f32) -> VoiceInfo
    ensures { result ≡ voice_info_of length data_length v }
{
    VoiceInfo {
        start: v.loop_start_percent,
        end: binary32::remainder(v.loop_start_percent + length / data_length, 1.0),
        pos: binary32::usize_to_f32(v.last_sample_index) / data_length,
    }
}

// Each voice's figures are of its own phrase; the loop length of `first`'s phrase of that number.
fn voice_infos(c: Channel, first: Channel, params: Params) -> VoiceInfos
    ensures { result ≡ voice_infos_of params first c }
{
    let n = c.count.min(32);
    let mut infos = [VoiceInfo::default(); 32];
    for i in 0..n {
        let v = c.voices[i];
        let whole = first.phrase_at(v.phrase);
        let own = c.phrase_at(v.phrase);
        let length = params.loop_length(whole.length);
        infos[i] = voice_info(v, length, binary32::usize_to_f32(own.length));
    }
    VoiceInfos {
        infos,
        count: c.count,
    }
}

// The caller has a list with room for so many.
#[tactic(auto, unfolding(crate::specs::Questions::get_voice_info_of))]
pub fn get_voice_info(
    s: Sampler,
    channel: usize,
    params: Params,
    room: usize,
) -> Result<VoiceInfos, Refusal>
    ensures { result ≡ get_voice_info_of s channel params room }
{
    let c = channel_at(s, channel);
    rows(s.good(), s.count, channel)?;
    Refusal::BeyondLimits.when(params.beyond_limits())?;
    Refusal::ShortList.when(room < c.count)?;
    Ok(voice_infos(c, channel_at(s, 0), params))
}

// The most columns of a waveform summary.
const MOST_COLUMNS: usize = 4096;

// The smallest and the largest of a waveform's columns.
#[derive(Clone, Copy)]
pub struct WaveformSummary {
    pub smallest: f32,
    pub largest: f32,
}

// The sum of the squares. That a sample may be NaN costs the loop a comparison, and no branch: the compiler takes several
// samples at once.
fn squares(samples: &[u32]) -> f32
    ensures { result ≡ squares_of (map float_of samples.now) }
{
    let mut total = 0.0;
    for bits in samples {
        let x = binary32::from_bits(*bits);
        total = total + x * x;
    }
    total
}

#[tactic(auto, unfolding(crate::specs::Waveforms::column_of))]
fn column(samples: &[u32]) -> f32
    ensures { result ≡ column_of (map float_of samples.now) }
{
    binary32::sqrt(squares(samples) / binary32::usize_to_f32(samples.len()))
}

// The cast drops the fraction, as the floor does.
fn cut(step: f32, i: usize) -> usize
    ensures { result ≡ as_whole 64 (floor_of (mul binary32 (as_float i) step)) }
{
    binary32::f32_to_usize(binary32::usize_to_f32(i) * step)
}

// Writes the columns of a recording to the front of the list.
fn write_columns(recording: &[u32], columns: usize, list: &mut [f32])
    requires { (length recording.now ≤ 2 ^ 22) × (columns ≤ 4096) × (columns ≤ length list.old) }
    ensures { list.new ≡ sets list.old 0 (columns_of columns recording.now) }
{
    let step = binary32::usize_to_f32(recording.len()) / binary32::usize_to_f32(columns);
    let mut start = 0;
    for i in 0..columns {
        let end = cut(step, i + 1);
        list[i] = column(&recording[start..end]);
        start = end;
    }
}

fn largest(values: &[f32]) -> f32
    ensures { result ≡ largest_of values.now }
{
    values
        .iter()
        .fold(0.0, |most, value| binary32::max(most, *value))
}

// Whether a recording stands in its channel's part.
fn in_part(head: Head, capacity: usize) -> bool
    ensures { result ≡ in_part capacity head }
{
    let recording = head.recording();
    recording.ends_by(capacity)
}

// Whether what is seen may be of a good record: no recording in use leaves its part. One that isn't in use may stand
// anywhere.
#[tactic(auto, unfolding(crate::specs::Sights::sound_in))]
fn sound(t: Seen) -> bool
    ensures { result ≡ sound_in t }
{
    t.good
        && sampler::good_sizes(t.count, t.capacity)
        && in_part(t.first, t.capacity)
        && (t.count != 2 || in_part(t.second, t.capacity))
}

// And memory of that size is long enough for it.
#[tactic(auto, unfolding(crate::specs::Sights::good_in))]
pub fn good_in(t: Seen, size: usize) -> bool
    ensures { result ≡ good_in t size }
{
    sound(t) && sampler::enough(t.count, t.capacity, size)
}

fn waveform_judged(t: Seen, columns: usize, room: usize, size: usize) -> Result<(), Refusal>
    ensures { result ≡ waveform_judged_in t columns room size }
{
    Refusal::Broken.when(!good_in(t, size))?;
    Refusal::TooManyColumns.when(MOST_COLUMNS < columns)?;
    Refusal::ShortList.when(room < columns)
}

// Writes a value for each column of channel 0's recording to the front of the list. None is below 0, so the smallest is
// where the extremes start.
pub fn waveform_in(
    t: Seen,
    columns: usize,
    list: &mut [f32],
    memory: &[u32],
) -> Result<WaveformSummary, Refusal>
    ensures value { result ≡ waveform_in t columns (length list.old) memory.now }
    ensures list_after { list.new ≡ waveform_left t columns list.old memory.now }
{
    waveform_judged(t, columns, list.len(), memory.len())?;
    let start = t.first.start;
    let end = start + t.first.data_len;
    write_columns(&memory[start..end], columns, list);
    Ok(WaveformSummary {
        smallest: 0.0,
        largest: largest(&list[..columns]),
    })
}

pub fn get_waveform_summary(
    s: Sampler,
    columns: usize,
    list: &mut [f32],
    memory: &[u32],
) -> Result<WaveformSummary, Refusal>
    ensures value { result ≡ get_waveform_summary_of s columns (length list.old) memory.now }
    ensures list_after { list.new ≡ waveform_after s columns list.old memory.now }
{
    waveform_in(look(s), columns, list, memory)
}
