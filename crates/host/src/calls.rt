// The calls that play or change a record, on the host's record as it stands. A note is two bytes, and a phrase's number
// any number: each call's contract is that of the lent engine's.
ghost use Rattle.std.specs.Prelude.{◌≡◌, length};
ghost use Rattle.common_types.specs.Notes.{note_of};
ghost use Rattle.sampler.specs.Samplers.{
  start_playing_of,
  stop_playing_of,
  set_note_speed_of,
  start_recording_of,
  stop_recording_of,
  set_interpolation_of,
  choose_phrase_of,
  delete_phrase_of,
  gather_of,
  gather_memory,
  reset_of,
  process_sample_of,
  sample_memory,
  Frames,
  framed_of,
  frame_moved,
  ran_of,
  run_answer,
};
ghost use Rattle.refusals.specs.Refusals.{code_of};
ghost use Rattle.lent_sampler.specs.Hearing.{done_in, heard_in, moved_in};
ghost use Rattle.sampler.specs.Refusals.{frame_number};
ghost use Rattle.recordings.specs.Waves.{read_wave_of, read_memory};
ghost use Rattle.songs.specs.Plays.{play_of};
ghost use Rattle.host.specs.Crossing.{phrase_byte, Coded, sampled_by, ran_by, rate_by};

use channel::{Change, HeadChange};
use common_types::{Note, Params};
use lent_channel::Heard;
use lent_songs::Played;
use refusals::Refusal;
use sampler::{Ran, Sampler};

// Each key, and each call that names a phrase, is the change that a function makes of the host's numbers.
pub fn start_of(position: f32, note: u8, channel: u8, velocity: f32, params: Params) -> Change
    ensures { result ≡ Change.Start params position (note_of note channel) velocity }
{
    Change::Start {
        params: params.copied(),
        position,
        note: Note::new(note, channel),
        velocity,
    }
}

pub fn stop_of(note: u8, channel: u8, params: Params) -> Change
    ensures { result ≡ Change.Stop params (note_of note channel) }
{
    Change::Stop {
        params: params.copied(),
        note: Note::new(note, channel),
    }
}

pub fn speed_of(note: u8, channel: u8, speed: f32) -> Change
    ensures { result ≡ Change.Speed (note_of note channel) speed }
{
    Change::Speed {
        note: Note::new(note, channel),
        speed,
    }
}

// A number past a byte is as 255: no channel has that phrase.
fn phrase_by(phrase: usize) -> u8
    ensures { result ≡ phrase_byte phrase }
{
    if phrase < 256 { phrase as u8 } else { 255 }
}

pub fn choice_of(phrase: usize) -> Change
    ensures { result ≡ Change.Head (HeadChange.Choose (phrase_byte phrase)) }
{
    Change::Head(HeadChange::Choose(phrase_by(phrase)))
}

pub fn deletion_of(phrase: usize) -> Change
    ensures { result ≡ Change.Head (HeadChange.Delete (phrase_byte phrase)) }
{
    Change::Head(HeadChange::Delete(phrase_by(phrase)))
}

pub fn start_playing(
    s: &mut Sampler,
    position: f32,
    note: u8,
    channel: u8,
    velocity: f32,
    params: Params,
) -> u8
    ensures { Coded (start_playing_of s.old position (note_of note channel) velocity params) s.new result }
{
    refusals::code(lent_sampler::change(s, start_of(position, note, channel, velocity, params)))
}

pub fn stop_playing(s: &mut Sampler, note: u8, channel: u8, params: Params) -> u8
    ensures { Coded (stop_playing_of s.old (note_of note channel) params) s.new result }
{
    refusals::code(lent_sampler::change(s, stop_of(note, channel, params)))
}

pub fn set_note_speed(s: &mut Sampler, note: u8, channel: u8, speed: f32) -> u8
    ensures { Coded (set_note_speed_of s.old (note_of note channel) speed) s.new result }
{
    refusals::code(lent_sampler::change(s, speed_of(note, channel, speed)))
}

pub fn start_recording(s: &mut Sampler) -> u8
    ensures { Coded (start_recording_of s.old) s.new result }
{
    refusals::code(lent_sampler::start_recording(s))
}

pub fn stop_recording(s: &mut Sampler) -> u8
    ensures { Coded (stop_recording_of s.old) s.new result }
{
    refusals::code(lent_sampler::stop_recording(s))
}

pub fn set_interpolation(s: &mut Sampler, on: bool) -> u8
    ensures { Coded (set_interpolation_of s.old on) s.new result }
{
    refusals::code(lent_sampler::set_interpolation(s, on))
}

pub fn choose_phrase(s: &mut Sampler, phrase: usize) -> u8
    ensures { Coded (choose_phrase_of s.old (phrase_byte phrase)) s.new result }
{
    refusals::code(lent_sampler::change(s, choice_of(phrase)))
}

pub fn delete_phrase(s: &mut Sampler, phrase: usize) -> u8
    ensures { Coded (delete_phrase_of s.old (phrase_byte phrase)) s.new result }
{
    refusals::code(lent_sampler::change(s, deletion_of(phrase)))
}

pub fn reset(s: &mut Sampler) -> u8
    ensures { Coded (reset_of s.old) s.new result }
{
    refusals::code(lent_sampler::reset(s))
}

pub fn gather(s: &mut Sampler, memory: &mut [u32]) -> u8
    ensures { Coded (gather_of s.old memory.old) s.new result
        × (memory.new ≡ gather_memory s.old memory.old) }
{
    refusals::code(lent_sampler::gather(s, memory))
}

// These structs are the C interface's (host/vusatica.c), with a number for a refusal and 0 for none. A file's rate:
#[derive(Clone, Copy)]
pub struct RateRead {
    pub rate: u32,
    pub number: u8,
}

fn rate_by(read: Result<u32, Refusal>) -> RateRead
    ensures { result ≡ rate_by read }
{
    match read {
        Ok(rate) => RateRead { rate, number: 0 },
        Err(refusal) => RateRead {
            rate: 0,
            number: refusal.number(),
        },
    }
}

pub fn read_wave(s: &mut Sampler, file: &[u8], memory: &mut [u32]) -> RateRead
    ensures { (s.new ≡ (read_wave_of s.old file.now (length memory.old)).sampler)
        × (result ≡ rate_by (read_wave_of s.old file.now (length memory.old)).read)
        × (memory.new ≡ read_memory s.old file.now memory.old) }
{
    rate_by(lent_sampler::read_wave(s, file, memory))
}

// How many voices of a frame's channels moved up:
#[derive(Clone, Copy)]
pub struct FrameDone {
    pub number: u8,
    pub moved: u8,
}

pub fn frame_by(done: Result<u8, Refusal>) -> FrameDone
    ensures number_value { result.number ≡ code_of (done_in done) }
    ensures moved_value { result.moved ≡ moved_in done }
{
    match done {
        Ok(moved) => FrameDone { number: 0, moved },
        Err(refusal) => FrameDone {
            number: refusal.number(),
            moved: 0,
        },
    }
}

pub fn process_frame(
    s: &mut Sampler,
    frame: &mut [f32],
    params: Params,
    memory: &mut [u32],
) -> FrameDone
    ensures { (result.number
        ≡ frame_number s.old (length frame.old) params (length memory.old))
        × Frames (framed_of s.old frame.old params memory.old) s.new
        frame.new memory.new
        × (result.moved ≡ frame_moved s.old frame.old params memory.old) }
{
    frame_by(lent_sampler::process_frame(s, frame, params, memory))
}

// The frames of a run that are done:
#[derive(Clone, Copy)]
pub struct RunDone {
    pub frames: usize,
    pub number: u8,
}

pub fn ran_by(ran: Ran) -> RunDone
    ensures { result ≡ ran_by ran }
{
    RunDone {
        frames: ran.frames,
        number: refusals::code(ran.done),
    }
}

pub fn process_frames(
    s: &mut Sampler,
    run: &mut [f32],
    params: Params,
    memory: &mut [u32],
) -> RunDone
    ensures { (result
        ≡ ran_by (run_answer s.old (length run.old) params (length memory.old)))
        × Frames (ran_of s.old run.old params memory.old) s.new
        run.new memory.new }
{
    ran_by(lent_sampler::process_frames(s, run, params, memory))
}

// What is heard of a sample, and how many voices moved up: of a refused one nothing, and none.
#[derive(Clone, Copy)]
pub struct Sampled {
    pub output: f32,
    pub number: u8,
    pub moved: u8,
}

pub fn heard_by(heard: Result<Heard, Refusal>) -> Sampled
    ensures { result ≡ record {
      output = (heard_in heard).output;
      number = code_of (done_in heard);
      moved = (heard_in heard).moved;
    } }
{
    match heard {
        Ok(heard) => Sampled {
            output: heard.output,
            number: 0,
            moved: heard.moved,
        },
        Err(refusal) => Sampled {
            output: 0.0,
            number: refusal.number(),
            moved: 0,
        },
    }
}

pub fn process_sample(
    s: &mut Sampler,
    channel: usize,
    input: f32,
    params: Params,
    memory: &mut [u32],
) -> Sampled
    ensures { (s.new ≡ (process_sample_of s.old channel input params memory.old).sampler)
        × (result ≡ sampled_by (process_sample_of s.old channel input params memory.old))
        × (memory.new ≡ sample_memory s.old channel input params memory.old) }
{
    heard_by(lent_sampler::process_sample(s, channel, input, params, memory))
}

// The calls of a song's list that are due before that frame, from the entry `next` on.
pub fn play_song(s: &mut Sampler, list: &[u64], next: usize, frame: u64, params: Params) -> Played
    ensures { record { sampler = s.new; next = result.next; refused = result.refused }
        ≡ play_of s.old list.now next frame params }
{
    lent_songs::play(s, list, next, frame, params)
}
