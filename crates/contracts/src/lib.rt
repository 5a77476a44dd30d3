// Each public call of the engine by value once more, with its contract in the words of promises/specs/Outcomes.antt:
// what the theorems take a contract to allow is what the contract says. Nothing calls these functions. The calls on a
// record that is lent are in specs/Lent.antt.
#![tactic(auto)]

ghost use Rattle.std.specs.Prelude.{List, ℕ};
ghost use Rattle.promises.specs.Runs.{
  get_frames_processed,
  get_data_len,
  is_recording,
  get_last_recorded_offset,
  print_error_info,
  iter_active_notes,
  get_voice_info,
  get_waveform_summary,
  write_wave,
  change as change_call,
  start,
  stop,
  speed as speed_call,
  start_recording,
  stop_recording,
  set_interpolation,
  choose_phrase,
  delete_phrase,
  reset as reset_call,
  sample,
  frame as frame_call,
  read_wave,
  gather as gather_call,
  asks,
};
ghost use Rattle.promises.specs.Outcomes.{new as set_up_call, on, along, reads, plays, Allows};

use channel::Change;
use common_types::{InitParams, Note, Params};
use questions::{VoiceInfos, WaveformSummary};
use recordings::ReadAnswer;
use refusals::Refusal;
use sampler::{Answer, FrameAnswer, RunAnswer, SampleAnswer, Sampler};
use songs::Playing;

pub fn new(count: usize, params: InitParams, memory: &[u32]) -> Answer
    ensures { Allows (set_up_call count params memory.now) result }
{
    Sampler::new(count, params, memory)
}

pub fn changed(s: Sampler, change: Change) -> Answer
    ensures { (m : List ℕ) → Allows (on (record { sampler = s; memory = m }) (change_call change)) result }
{
    s.changed(change)
}

pub fn start_playing(s: Sampler, position: f32, note: Note, velocity: f32, params: Params) -> Answer
    ensures { (m : List ℕ)
        → Allows (on (record { sampler = s; memory = m }) (start position note velocity params)) result }
{
    s.start_playing(position, note, velocity, params)
}

pub fn stop_playing(s: Sampler, note: Note, params: Params) -> Answer
    ensures { (m : List ℕ) → Allows (on (record { sampler = s; memory = m }) (stop note params)) result }
{
    s.stop_playing(note, params)
}

pub fn set_note_speed(s: Sampler, note: Note, speed: f32) -> Answer
    ensures { (m : List ℕ) → Allows (on (record { sampler = s; memory = m }) (speed_call note speed)) result }
{
    s.set_note_speed(note, speed)
}

pub fn start_recording(s: Sampler) -> Answer
    ensures { (m : List ℕ) → Allows (on (record { sampler = s; memory = m }) start_recording) result }
{
    s.start_recording()
}

pub fn stop_recording(s: Sampler) -> Answer
    ensures { (m : List ℕ) → Allows (on (record { sampler = s; memory = m }) stop_recording) result }
{
    s.stop_recording()
}

pub fn set_interpolation(s: Sampler, smooth: bool) -> Answer
    ensures { (m : List ℕ) → Allows (on (record { sampler = s; memory = m }) (set_interpolation smooth)) result }
{
    s.set_interpolation(smooth)
}

pub fn choose_phrase(s: Sampler, phrase: u8) -> Answer
    ensures { (m : List ℕ) → Allows (on (record { sampler = s; memory = m }) (choose_phrase phrase)) result }
{
    s.choose_phrase(phrase)
}

pub fn delete_phrase(s: Sampler, phrase: u8) -> Answer
    ensures { (m : List ℕ) → Allows (on (record { sampler = s; memory = m }) (delete_phrase phrase)) result }
{
    s.delete_phrase(phrase)
}

pub fn reset(s: Sampler) -> Answer
    ensures { (m : List ℕ) → Allows (on (record { sampler = s; memory = m }) reset_call) result }
{
    s.reset()
}

pub fn gather(s: Sampler, memory: &mut [u32]) -> Answer
    ensures { Allows (on (record { sampler = s; memory = memory.old }) gather_call)
        (record { answer = result; memory = memory.new }) }
{
    s.gather(memory)
}

pub fn process_sample(
    s: Sampler,
    channel: usize,
    input: f32,
    params: Params,
    memory: &mut [u32],
) -> SampleAnswer
    ensures { Allows (on (record { sampler = s; memory = memory.old }) (sample channel input params))
        (record { answer = result; memory = memory.new }) }
{
    s.process_sample(channel, input, params, memory)
}

pub fn process_frame(
    s: Sampler,
    frame: &mut [f32],
    params: Params,
    memory: &mut [u32],
) -> FrameAnswer
    ensures { Allows
        (on (record { sampler = s; memory = memory.old }) (frame_call frame.old params))
        (record { answer = result; frame = frame.new; memory = memory.new }) }
{
    s.process_frame(frame, params, memory)
}

pub fn process_frames(s: Sampler, run: &mut [f32], params: Params, memory: &mut [u32]) -> RunAnswer
    ensures { Allows
        (along (record { sampler = s; memory = memory.old }) run.old params)
        (record { answer = result; run = run.new; memory = memory.new }) }
{
    s.process_frames(run, params, memory)
}

pub fn get_frames_processed(s: Sampler, channel: usize) -> Result<usize, Refusal>
    ensures { (m : List ℕ)
        → Allows (on (record { sampler = s; memory = m }) (asks (get_frames_processed channel))) result }
{
    questions::get_frames_processed(s, channel)
}

pub fn get_data_len(s: Sampler, channel: usize) -> Result<usize, Refusal>
    ensures { (m : List ℕ) → Allows (on (record { sampler = s; memory = m }) (asks (get_data_len channel))) result }
{
    questions::get_data_len(s, channel)
}

pub fn is_recording(s: Sampler, channel: usize) -> Result<bool, Refusal>
    ensures { (m : List ℕ)
        → Allows (on (record { sampler = s; memory = m }) (asks (is_recording channel))) result }
{
    questions::is_recording(s, channel)
}

pub fn get_last_recorded_offset(s: Sampler, channel: usize) -> Result<Option<usize>, Refusal>
    ensures { (m : List ℕ)
        → Allows (on (record { sampler = s; memory = m }) (asks (get_last_recorded_offset channel))) result }
{
    questions::get_last_recorded_offset(s, channel)
}

pub fn print_error_info(s: Sampler, channel: usize, text: &mut [u8]) -> Result<usize, Refusal>
    ensures { (m : List ℕ)
        → Allows (on (record { sampler = s; memory = m }) (asks (print_error_info channel text.old)))
        (record { answer = result; lent = text.new }) }
{
    questions::print_error_info(s, channel, text)
}

pub fn iter_active_notes(s: Sampler, channel: usize, notes: &mut [u64]) -> Result<usize, Refusal>
    ensures { (m : List ℕ)
        → Allows (on (record { sampler = s; memory = m }) (asks (iter_active_notes channel notes.old)))
        (record { answer = result; lent = notes.new }) }
{
    questions::iter_active_notes(s, channel, notes)
}

pub fn get_voice_info(
    s: Sampler,
    channel: usize,
    params: Params,
    room: usize,
) -> Result<VoiceInfos, Refusal>
    ensures { (m : List ℕ)
        → Allows (on (record { sampler = s; memory = m }) (asks (get_voice_info channel params room))) result }
{
    questions::get_voice_info(s, channel, params, room)
}

pub fn get_waveform_summary(
    s: Sampler,
    columns: usize,
    list: &mut [f32],
    memory: &[u32],
) -> Result<WaveformSummary, Refusal>
    ensures { Allows
        (on (record { sampler = s; memory = memory.now })
        (asks (get_waveform_summary columns list.old)))
        (record { answer = result; lent = list.new }) }
{
    questions::get_waveform_summary(s, columns, list, memory)
}

pub fn write_wave(s: Sampler, rate: u32, memory: &[u32], out: &mut [u8]) -> Result<usize, Refusal>
    ensures { Allows
        (on (record { sampler = s; memory = memory.now }) (asks (write_wave rate out.old)))
        (record { answer = result; lent = out.new }) }
{
    recordings::write_wave(s, rate, memory, out)
}

pub fn read_wave(s: Sampler, file: &[u8], memory: &mut [u32]) -> ReadAnswer
    ensures { Allows (on (record { sampler = s; memory = memory.old }) (read_wave file.now))
        (record { answer = result; memory = memory.new }) }
{
    recordings::read_wave(s, file, memory)
}

pub fn read_song(file: &[u8], rate: u32, list: &mut [u64]) -> Result<usize, smf::SongRefusal>
    ensures { Allows (reads file.now rate list.old)
        (record { answer = result; lent = list.new }) }
{
    smf::read_song(file, rate, list)
}

pub fn play(s: Sampler, list: &[u64], next: usize, at: u64, params: Params) -> Playing
    ensures { Allows (plays s list.now next at params) result }
{
    songs::play(s, list, next, at, params)
}
