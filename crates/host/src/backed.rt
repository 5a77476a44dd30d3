// The plain engine's calls (request 9/12) on the host's two records as they stand. A note is two bytes, a phrase's number
// any number, and a refusal a number: each call's contract is that of the plain engine's.
ghost use Rattle.std.specs.Prelude.{◌≡◌, length};
ghost use Rattle.common_types.specs.Notes.{note_of};
ghost use Rattle.sampler.specs.Samplers.{
  start_playing_of,
  stop_playing_of,
  set_note_speed_of,
  start_recording_of,
  stop_recording_of,
  set_interpolation_of,
  choose_phrase_of,
  delete_phrase_of,
  reset_of,
  process_sample_of,
  sample_memory,
  Frames,
  framed_of,
  frame_moved,
  ran_of,
  run_answer,
};
ghost use Rattle.sampler.specs.Refusals.{frame_number};
ghost use Rattle.plain_sampler.specs.Backings.{
  change_backing,
  sample_backing,
  frame_backing,
  run_backing,
};
ghost use Rattle.host.specs.Crossing.{phrase_byte, Coded, sampled_by, ran_by};

use crate::calls::{FrameDone, RunDone, Sampled};
use channel::{Change, HeadChange};
use common_types::Params;
use plain_sampler::Backing;
use sampler::Sampler;

pub fn start_playing(
    s: &mut Sampler,
    k: &mut Backing,
    position: f32,
    note: u8,
    channel: u8,
    velocity: f32,
    params: Params,
) -> u8
    ensures { Coded (start_playing_of s.old position (note_of note channel) velocity params) s.new result
        × (k.new ≡ change_backing s.old (Change.Start params position (note_of note channel) velocity)
        k.old) }
{
    refusals::code(plain_sampler::change(
        s,
        k,
        crate::calls::start_of(position, note, channel, velocity, params),
    ))
}

pub fn stop_playing(s: &mut Sampler, k: &mut Backing, note: u8, channel: u8, params: Params) -> u8
    ensures { Coded (stop_playing_of s.old (note_of note channel) params) s.new result
        × (k.new
        ≡ change_backing s.old (Change.Stop params (note_of note channel)) k.old) }
{
    refusals::code(plain_sampler::change(s, k, crate::calls::stop_of(note, channel, params)))
}

pub fn set_note_speed(s: &mut Sampler, k: &mut Backing, note: u8, channel: u8, speed: f32) -> u8
    ensures { Coded (set_note_speed_of s.old (note_of note channel) speed) s.new result
        × (k.new
        ≡ change_backing s.old (Change.Speed (note_of note channel) speed) k.old) }
{
    refusals::code(plain_sampler::change(s, k, crate::calls::speed_of(note, channel, speed)))
}

pub fn choose_phrase(s: &mut Sampler, k: &mut Backing, phrase: usize) -> u8
    ensures { Coded (choose_phrase_of s.old (phrase_byte phrase)) s.new result
        × (k.new
        ≡ change_backing s.old (Change.Head (HeadChange.Choose (phrase_byte phrase))) k.old) }
{
    refusals::code(plain_sampler::change(s, k, crate::calls::choice_of(phrase)))
}

pub fn delete_phrase(s: &mut Sampler, k: &mut Backing, phrase: usize) -> u8
    ensures { Coded (delete_phrase_of s.old (phrase_byte phrase)) s.new result
        × (k.new
        ≡ change_backing s.old (Change.Head (HeadChange.Delete (phrase_byte phrase))) k.old) }
{
    refusals::code(plain_sampler::change(s, k, crate::calls::deletion_of(phrase)))
}

pub fn start_recording(s: &mut Sampler, k: &mut Backing) -> u8
    ensures { Coded (start_recording_of s.old) s.new result
        × (k.new ≡ change_backing s.old (Change.Head HeadChange.StartRecording) k.old) }
{
    refusals::code(plain_sampler::start_recording(s, k))
}

pub fn stop_recording(s: &mut Sampler, k: &mut Backing) -> u8
    ensures { Coded (stop_recording_of s.old) s.new result
        × (k.new ≡ change_backing s.old (Change.Head HeadChange.StopRecording) k.old) }
{
    refusals::code(plain_sampler::stop_recording(s, k))
}

pub fn set_interpolation(s: &mut Sampler, k: &mut Backing, on: bool) -> u8
    ensures { Coded (set_interpolation_of s.old on) s.new result
        × (k.new ≡ change_backing s.old (Change.Head (HeadChange.Interpolate on)) k.old) }
{
    refusals::code(plain_sampler::set_interpolation(s, k, on))
}

pub fn reset(s: &mut Sampler, k: &mut Backing) -> u8
    ensures { Coded (reset_of s.old) s.new result
        × (k.new ≡ change_backing s.old Change.Reset k.old) }
{
    refusals::code(plain_sampler::reset(s, k))
}

pub fn process_frame(
    s: &mut Sampler,
    k: &mut Backing,
    frame: &mut [f32],
    params: Params,
    memory: &mut [u32],
) -> FrameDone
    ensures { ((result.number
        ≡ frame_number s.old (length frame.old) params (length memory.old))
        × Frames (framed_of s.old frame.old params memory.old) s.new
        frame.new memory.new
        × (result.moved ≡ frame_moved s.old frame.old params memory.old))
        × (k.new
        ≡ frame_backing s.old frame.old params memory.old k.old) }
{
    crate::calls::frame_by(plain_sampler::process_frame(s, k, frame, params, memory))
}

pub fn process_frames(
    s: &mut Sampler,
    k: &mut Backing,
    run: &mut [f32],
    params: Params,
    memory: &mut [u32],
) -> RunDone
    ensures { ((result
        ≡ ran_by (run_answer s.old (length run.old) params (length memory.old)))
        × Frames (ran_of s.old run.old params memory.old) s.new
        run.new memory.new)
        × (k.new
        ≡ run_backing s.old run.old params memory.old k.old) }
{
    crate::calls::ran_by(plain_sampler::process_frames(s, k, run, params, memory))
}

pub fn process_sample(
    s: &mut Sampler,
    k: &mut Backing,
    channel: usize,
    input: f32,
    params: Params,
    memory: &mut [u32],
) -> Sampled
    ensures { ((s.new ≡ (process_sample_of s.old channel input params memory.old).sampler)
        × (result ≡ sampled_by (process_sample_of s.old channel input params memory.old))
        × (memory.new ≡ sample_memory s.old channel input params memory.old))
        × (k.new
        ≡ sample_backing s.old channel input params memory.old k.old) }
{
    crate::calls::heard_by(plain_sampler::process_sample(s, k, channel, input, params, memory))
}
