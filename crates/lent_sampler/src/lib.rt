// The sampler's calls on one record that its host lends, with the definitions of the calls by value in their contracts.
// Each is done where the record stands: a frame, a run or a sample is played there, a change, a gather or a read made, a
// question answered, and no channel is copied.
#![tactic(auto)]

ghost use Rattle.std.specs.Prelude.{Ok, ◌≡◌, ◌-◌, ◌≤◌, ◌++◌, length, take, drop, slice_range};
ghost use Rattle.std.specs.List.{list_all};
ghost use Rattle.sampler.specs.Samplers.{
  start_playing_of,
  stop_playing_of,
  set_note_speed_of,
  start_recording_of,
  stop_recording_of,
  set_interpolation_of,
  choose_phrase_of,
  delete_phrase_of,
  gather_of,
  gather_memory,
  reset_of,
  each_of,
  change_of,
  sample_memory,
  Frames,
  framed_of,
  frame_moved,
  ran_of,
  run_answer,
};
ghost use Rattle.sampler.specs.Samplers.{process_sample_of as sample_of};
ghost use Rattle.sampler.specs.Refusals.{
  present,
  channel_at,
  good_sampler,
  good_with,
  against_any,
  change_judged,
  gather_judged,
  sample_judged,
  frame_judged,
  question_rows,
};
ghost use Rattle.channel.specs.Channels.{good_channel, process_sample_of, memory_of};
ghost use Rattle.questions.specs.Questions.{
  get_frames_processed_of,
  get_data_len_of,
  is_recording_of,
  get_last_recorded_offset_of,
  print_error_info_of,
  error_text_after,
  iter_active_notes_of,
  active_notes_after,
  figures_of,
};
ghost use Rattle.questions.specs.Sights.{seen_of};
ghost use Rattle.questions.specs.Waveforms.{get_waveform_summary_of, waveform_after};
ghost use Rattle.recordings.specs.Waves.{write_wave_of, wave_after, read_wave_of, read_memory};
ghost use Rattle.recordings.specs.Sights.{survey_of};
ghost use Rattle.questions.specs.Lists.{voice_info_counted, voice_info_after};
ghost use Rattle.lent_channel.specs.Turns.{heard_of};
ghost use Rattle.lent_sampler.specs.Runs.{run_seat};
ghost use Rattle.lent_sampler.specs.Hearing.{at_volume, done_in, heard_in, moved_in};
ghost use Rattle.lent_sampler.specs.Lists.{
  seated,
  unfinished,
  phrase_length,
};

use channel::{Against, Ask, Change, Channel, HeadChange};
use common_types::{Note, Params};
use lent_channel::{Asking, Heard};
use questions::{Seen, VoiceInfo, WaveformSummary};
use recordings::Surveyed;
use refusals::Refusal;
use sampler::{Asked, FrameAsked, Ran, RunAsked, Sampler};
use voice::Voice;

fn good_channels(s: &Sampler) -> bool
    ensures { result ≡ list_all (good_channel s.now.capacity) (present s.now) }
{
    s.present()
        .iter()
        .all(|c| lent_channel::good(c, s.capacity))
}

// Whether the record is good.
#[tactic(auto, unfolding(sampler::specs::Refusals::good_sampler))]
fn good(s: &Sampler) -> bool
    ensures { result ≡ good_sampler s.now }
{
    sampler::good_sizes(s.count, s.capacity) && good_channels(s)
}

// Whether record and memory are good.
#[tactic(auto, unfolding(sampler::specs::Refusals::good_with))]
fn good_with(s: &Sampler, size: usize) -> bool
    ensures { result ≡ good_with s.now size }
{
    good(s) && sampler::enough(s.count, s.capacity, size)
}

// What is read of a record before a question, with no channel copied.
fn look(s: &Sampler) -> Seen
    ensures seen { result ≡ seen_of s.now }
    ensures two { length s.now.channels ≡ 2 }
{
    Seen {
        good: good(s),
        count: s.count,
        capacity: s.capacity,
        first: s.channels[0].head,
        second: s.channels[1].head,
    }
}

// What the channels in use have against what a change asks.
#[tactic(auto, unfolding(sampler::specs::Refusals::against_any))]
fn against(s: &Sampler, ask: Ask) -> Against
    ensures { result ≡ against_any ask s.now }
{
    let asking = Asking {
        ask,
        capacity: s.capacity,
    };
    let mut blocked = false;
    let mut short = false;
    for c in s.present() {
        let a = lent_channel::against(c, asking);
        blocked = blocked | a.blocked;
        short = short | a.short;
    }
    Against { blocked, short }
}

// Whether a change is refused, with no channel copied.
fn change_judged(s: &Sampler, change: Change) -> Result<(), Refusal>
    ensures { result ≡ change_judged s.now change }
{
    let asked = Asked {
        good: good(s),
        against: against(s, channel::asks(change)),
    };
    sampler::change_rows(asked, change)
}

// Makes a change of each channel in use.
fn each(s: &mut Sampler, change: Change)
    ensures { s.new ≡ each_of change s.old }
{
    let n = s.count.min(2);
    for j in 0..n {
        lent_changes::change(&mut s.channels[j], change);
    }
}

// The call that makes a change of every channel, all or none, where the record stands. The names below are it, each at
// the change that a function makes of the name's arguments.
#[tactic(auto, unfolding(sampler::specs::Samplers::answer_of))]
pub fn change(s: &mut Sampler, change: Change) -> Result<(), Refusal>
    ensures { record { sampler = s.new; done = result } ≡ change_of s.old change }
{
    change_judged(s, change)?;
    each(s, change);
    Ok(())
}

pub fn start_of(position: f32, note: Note, velocity: f32, params: Params) -> Change
    ensures { result ≡ Change.Start params position note velocity }
{
    Change::Start {
        params: params.copied(),
        position,
        note,
        velocity,
    }
}

pub fn stop_of(note: Note, params: Params) -> Change
    ensures { result ≡ Change.Stop params note }
{
    Change::Stop {
        params: params.copied(),
        note,
    }
}

pub fn speed_of(note: Note, speed: f32) -> Change
    ensures { result ≡ Change.Speed note speed }
{
    Change::Speed { note, speed }
}

pub fn recording_started() -> Change
    ensures { result ≡ Change.Head HeadChange.StartRecording }
{
    Change::Head(HeadChange::StartRecording)
}

pub fn recording_stopped() -> Change
    ensures { result ≡ Change.Head HeadChange.StopRecording }
{
    Change::Head(HeadChange::StopRecording)
}

pub fn interpolation_set(on: bool) -> Change
    ensures { result ≡ Change.Head (HeadChange.Interpolate on) }
{
    Change::Head(HeadChange::Interpolate(on))
}

pub fn phrase_chosen(phrase: u8) -> Change
    ensures { result ≡ Change.Head (HeadChange.Choose phrase) }
{
    Change::Head(HeadChange::Choose(phrase))
}

pub fn phrase_deleted(phrase: u8) -> Change
    ensures { result ≡ Change.Head (HeadChange.Delete phrase) }
{
    Change::Head(HeadChange::Delete(phrase))
}

pub fn all_reset() -> Change
    ensures { result ≡ Change.Reset }
{
    Change::Reset
}

pub fn start_playing(
    s: &mut Sampler,
    position: f32,
    note: Note,
    velocity: f32,
    params: Params,
) -> Result<(), Refusal>
    ensures { record { sampler = s.new; done = result }
        ≡ start_playing_of s.old position note velocity params }
{
    change(s, start_of(position, note, velocity, params))
}

pub fn stop_playing(s: &mut Sampler, note: Note, params: Params) -> Result<(), Refusal>
    ensures { record { sampler = s.new; done = result } ≡ stop_playing_of s.old note params }
{
    change(s, stop_of(note, params))
}

pub fn set_note_speed(s: &mut Sampler, note: Note, speed: f32) -> Result<(), Refusal>
    ensures { record { sampler = s.new; done = result } ≡ set_note_speed_of s.old note speed }
{
    change(s, speed_of(note, speed))
}

pub fn start_recording(s: &mut Sampler) -> Result<(), Refusal>
    ensures { record { sampler = s.new; done = result } ≡ start_recording_of s.old }
{
    change(s, recording_started())
}

pub fn stop_recording(s: &mut Sampler) -> Result<(), Refusal>
    ensures { record { sampler = s.new; done = result } ≡ stop_recording_of s.old }
{
    change(s, recording_stopped())
}

// 7/12's setting, of every channel.
pub fn set_interpolation(s: &mut Sampler, on: bool) -> Result<(), Refusal>
    ensures { record { sampler = s.new; done = result } ≡ set_interpolation_of s.old on }
{
    change(s, interpolation_set(on))
}

// The phrase of that number is recorded and started from here on.
pub fn choose_phrase(s: &mut Sampler, phrase: u8) -> Result<(), Refusal>
    ensures { record { sampler = s.new; done = result } ≡ choose_phrase_of s.old phrase }
{
    change(s, phrase_chosen(phrase))
}

// Empties a phrase that nothing uses.
pub fn delete_phrase(s: &mut Sampler, phrase: u8) -> Result<(), Refusal>
    ensures { record { sampler = s.new; done = result } ≡ delete_phrase_of s.old phrase }
{
    change(s, phrase_deleted(phrase))
}

pub fn reset(s: &mut Sampler) -> Result<(), Refusal>
    ensures { record { sampler = s.new; done = result } ≡ reset_of s.old }
{
    change(s, all_reset())
}

// Whether a gather is refused, with no channel copied.
#[tactic(auto, unfolding(sampler::specs::Refusals::gather_judged))]
fn gather_judged(s: &Sampler, size: usize) -> Result<(), Refusal>
    ensures { result ≡ gather_judged s.now size }
{
    Refusal::Broken.when(!good_with(s, size))?;
    Refusal::PhraseRecording.when(s.any_recording())
}

// Moves the phrases of each channel down, so that all free room of its part is behind them.
pub fn gather(s: &mut Sampler, memory: &mut [u32]) -> Result<(), Refusal>
    ensures { (record { sampler = s.new; done = result } ≡ gather_of s.old memory.old)
        × (memory.new ≡ gather_memory s.old memory.old) }
{
    gather_judged(s, memory.len())?;
    let capacity = s.capacity;
    for j in 0..s.count {
        let start = sampler::part_start(j, capacity);
        let end = start + capacity;
        lent_changes::gather(&mut s.channels[j], memory, start, end);
    }
    Ok(())
}

pub fn get_frames_processed(s: &Sampler, channel: usize) -> Result<usize, Refusal>
    ensures { result ≡ get_frames_processed_of s.now channel }
{
    questions::frames_in(look(s), channel)
}

pub fn get_data_len(s: &Sampler, channel: usize) -> Result<usize, Refusal>
    ensures { result ≡ get_data_len_of s.now channel }
{
    questions::length_in(look(s), channel)
}

pub fn is_recording(s: &Sampler, channel: usize) -> Result<bool, Refusal>
    ensures { result ≡ is_recording_of s.now channel }
{
    questions::recording_in(look(s), channel)
}

pub fn get_last_recorded_offset(s: &Sampler, channel: usize) -> Result<Option<usize>, Refusal>
    ensures { result ≡ get_last_recorded_offset_of s.now channel }
{
    questions::offset_in(look(s), channel)
}

pub fn print_error_info(s: &Sampler, channel: usize, text: &mut [u8]) -> Result<usize, Refusal>
    ensures { (result ≡ print_error_info_of s.now channel (length text.old))
        × (text.new ≡ error_text_after s.now channel text.old) }
{
    questions::error_in(look(s), channel, text)
}

// The asked one of the two channels; past the last it is the first, which no answer shows.
fn seated(s: &Sampler, channel: usize) -> &Channel
    ensures asked { result.now ≡ seated s.now channel }
    ensures whole { length (seated s.now channel).voices ≡ 32 }
{
    &s.channels[if channel == 1 { 1 } else { 0 }]
}

// How many voices are unfinished.
#[tactic(auto, unfolding(crate::specs::Lists::unfinished))]
fn unfinished(c: &Channel) -> usize
    ensures { result ≡ unfinished c.now }
{
    c.live().iter().filter(|v| !v.finished).count()
}

// The rows that each question of a channel begins with.
fn rows(s: &Sampler, channel: usize) -> Result<(), Refusal>
    ensures { result ≡ question_rows s.now channel (Ok tt) }
{
    Refusal::Broken.when(!good(s))?;
    Refusal::NoChannel.when(!(channel < s.count))
}

// Writes the notes of the unfinished voices to the front of the list.
pub fn iter_active_notes(s: &Sampler, channel: usize, notes: &mut [u64]) -> Result<usize, Refusal>
    ensures { (result ≡ iter_active_notes_of s.now channel (length notes.old))
        × (notes.new ≡ active_notes_after s.now channel notes.old) }
{
    rows(s, channel)?;
    let c = seated(s, channel);
    let count = unfinished(c);
    Refusal::ShortList.when(notes.len() < count)?;
    let mut k = 0;
    for v in c.live() {
        if !v.finished {
            notes[k] = u64::from(v.note);
            k += 1;
        }
    }
    Ok(count)
}

// How long the phrase of that number is.
fn length_of(c: &Channel, k: u8) -> usize
    ensures { result ≡ phrase_length k c.now }
{
    let phrase = c
        .head
        .phrase_by(k, c.several, c.table[channel::place_of(k)]);
    phrase.length
}

// The figures of a voice, by its phrase; the loop length by channel 0's phrase of that number.
fn info(params: Params, first: &Channel, c: &Channel, v: Voice) -> VoiceInfo
    ensures { result ≡ figures_of params first.now c.now v }
{
    let length = params.loop_length(length_of(first, v.phrase));
    questions::voice_info(v, length, binary32::usize_to_f32(length_of(c, v.phrase)))
}

// Writes the figures of each voice to the front of the list.
pub fn get_voice_info(
    s: &Sampler,
    channel: usize,
    params: Params,
    list: &mut [VoiceInfo],
) -> Result<usize, Refusal>
    ensures { (result ≡ voice_info_counted s.now channel params list.old)
        × (list.new ≡ voice_info_after s.now channel params list.old) }
{
    rows(s, channel)?;
    Refusal::BeyondLimits.when(params.beyond_limits())?;
    let c = seated(s, channel);
    Refusal::ShortList.when(list.len() < c.count)?;
    for (i, v) in c.live().iter().enumerate() {
        list[i] = info(params, seated(s, 0), c, *v);
    }
    Ok(c.count)
}

// Writes a value for each column of channel 0's recording to the front of the list.
pub fn get_waveform_summary(
    s: &Sampler,
    columns: usize,
    list: &mut [f32],
    memory: &[u32],
) -> Result<WaveformSummary, Refusal>
    ensures { (result
        ≡ get_waveform_summary_of s.now columns (length list.old) memory.now)
        × (list.new ≡ waveform_after s.now columns list.old memory.now) }
{
    questions::waveform_in(look(s), columns, list, memory)
}

// Writes the recordings of all channels as a WAVE file to the front of `out`, and answers how many bytes it has.
pub fn write_wave(s: &Sampler, rate: u32, memory: &[u32], out: &mut [u8]) -> Result<usize, Refusal>
    ensures { (result ≡ write_wave_of s.now (length out.old) (length memory.now))
        × (out.new ≡ wave_after s.now rate memory.now out.old) }
{
    recordings::write_in(look(s), rate, memory, out)
}

// What a read asks of a record, with no channel copied.
fn survey(s: &Sampler) -> Surveyed
    ensures surveyed { result ≡ survey_of s.now }
    ensures two { length s.now.channels ≡ 2 }
    ensures eight { length (channel_at s.now 1).table ≡ 8 }
{
    Surveyed {
        seen: look(s),
        first: lent_channel::beside(&s.channels[0], s.capacity),
        second: lent_channel::beside(&s.channels[1], s.capacity),
    }
}

// Replaces the recording of each channel by a WAVE file's, and answers the file's rate.
pub fn read_wave(s: &mut Sampler, file: &[u8], memory: &mut [u32]) -> Result<u32, Refusal>
    ensures { (record { sampler = s.new; read = result }
        ≡ read_wave_of s.old file.now (length memory.old))
        × (memory.new ≡ read_memory s.old file.now memory.old) }
{
    let loading = recordings::read_in(survey(s), file, memory)?;
    each(s, Change::Head(HeadChange::Load(loading.samples)));
    Ok(loading.rate)
}

// Whether a sample of that channel is refused, with no channel copied.
#[tactic(auto, unfolding(sampler::specs::Refusals::sample_judged))]
pub fn sample_judged(
    s: &Sampler,
    channel: usize,
    params: Params,
    size: usize,
) -> Result<(), Refusal>
    ensures { result ≡ sample_judged s.now channel params size }
{
    Refusal::Broken.when(!good_with(s, size))?;
    Refusal::NoChannel.when(!(channel < s.count))?;
    Refusal::BeyondLimits.when(params.beyond_limits())?;
    Refusal::ClockEnd.when(channel::LAST_TIME <= s.channels[channel].head.now)
}

// Whether a frame is refused, with no channel copied.
#[tactic(auto, unfolding(sampler::specs::Refusals::frame_judged))]
pub fn frame_judged(s: &Sampler, entries: usize, params: Params, size: usize) -> Result<(), Refusal>
    ensures { result ≡ frame_judged s.now entries params size }
{
    let asked = FrameAsked {
        good: good_with(s, size),
        count: s.count,
        ended: s.any_at_end(entries),
    };
    sampler::frame_rows(asked, entries, params)
}

// What a run answers, with no channel copied: record, memory and parameters are judged once.
#[tactic(auto, unfolding(sampler::specs::Samplers::run_answer))]
pub fn run_answer(s: &Sampler, entries: usize, params: Params, size: usize) -> Ran
    ensures { result ≡ run_answer s.now entries params size }
{
    let asked = RunAsked {
        good: good_with(s, size),
        count: s.count,
        room: s.room(),
    };
    sampler::run_done(asked, entries, params)
}

// Whose entry i of a run is: that of its place in its frame.
#[tactic(auto, unfolding(crate::specs::Runs::run_seat))]
pub fn run_channel(i: usize, count: usize) -> usize
    ensures { result ≡ run_seat i count }
{
    if count == 1 { 0 } else { i % 2 }
}

pub fn at_volume(params: Params, heard: Heard) -> Heard
    ensures { result ≡ at_volume params heard }
{
    Heard {
        output: params.volume * heard.output,
        moved: heard.moved,
    }
}

// A sample of a channel on the part of the memory from `start` to `end`, at the parameters' volume.
fn part_sample(
    c: &mut Channel,
    params: Params,
    input: f32,
    memory: &mut [u32],
    start: usize,
    end: usize,
) -> Heard
    requires { (start ≤ end) × (end ≤ length memory.old) }
    ensures { (result
        ≡ at_volume params (heard_of (process_sample_of params input c.old
        (slice_range memory.old start end))))
        × (c.new
        ≡ (process_sample_of params input c.old
        (slice_range memory.old start end)).channel)
        × (memory.new ≡ take start memory.old
        ++ (memory_of input c.old (slice_range memory.old start end)
        ++ drop (end - start) (drop start memory.old))) }
{
    let heard = lent_channel::with_sample(c, params, input, &mut memory[start..end]);
    at_volume(params, heard)
}

// A sample of one channel.
pub fn process_sample(
    s: &mut Sampler,
    channel: usize,
    input: f32,
    params: Params,
    memory: &mut [u32],
) -> Result<Heard, Refusal>
    ensures { (record {
      sampler = s.new;
      output = (heard_in result).output;
      done = done_in result;
      moved = (heard_in result).moved;
    }
        ≡ sample_of s.old channel input params memory.old)
        × (memory.new ≡ sample_memory s.old channel input params memory.old) }
{
    sample_judged(s, channel, params, memory.len())?;
    let start = sampler::part_start(channel, s.capacity);
    let end = start + s.capacity;
    Ok(part_sample(&mut s.channels[channel], params, input, memory, start, end))
}

// A sample of each channel in turn, each entry of the frame replaced by its output. It answers how many voices of its
// channels moved up: at most 62.
pub fn process_frame(
    s: &mut Sampler,
    frame: &mut [f32],
    params: Params,
    memory: &mut [u32],
) -> Result<u8, Refusal>
    ensures { (done_in result
        ≡ frame_judged s.old (length frame.old) params (length memory.old))
        × Frames (framed_of s.old frame.old params memory.old) s.new
        frame.new memory.new
        × (moved_in result ≡ frame_moved s.old frame.old params memory.old) }
{
    frame_judged(s, frame.len(), params, memory.len())?;
    let capacity = s.capacity;
    let mut moved = 0;
    for i in 0..frame.len() {
        let start = sampler::part_start(i, capacity);
        let end = start + capacity;
        let heard = part_sample(&mut s.channels[i], params, frame[i], memory, start, end);
        frame[i] = heard.output;
        moved += heard.moved;
    }
    Ok(moved)
}

// A run of frames: entry i * count + j is channel j's of frame i. It has a loop of its own: one that it shared with the
// frame would take more of the frame's stack. The count is read for each entry: kept, it would take stack too.
pub fn process_frames(s: &mut Sampler, run: &mut [f32], params: Params, memory: &mut [u32]) -> Ran
    ensures { (result
        ≡ run_answer s.old (length run.old) params (length memory.old))
        × Frames (ran_of s.old run.old params memory.old) s.new
        run.new memory.new }
{
    let ran = run_answer(s, run.len(), params, memory.len());
    let capacity = s.capacity;
    for i in 0..ran.frames * s.count {
        let j = run_channel(i, s.count);
        let start = sampler::part_start(j, capacity);
        let end = start + capacity;
        let heard = part_sample(&mut s.channels[j], params, run[i], memory, start, end);
        run[i] = heard.output;
    }
    ran
}
