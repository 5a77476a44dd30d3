// The second engine (request 9/12): the sampler's calls on a record that its host lends, with a second record lent beside
// it in which plain voices have their positions. Of the first, of the memory and of the answer each contract says what
// that of the lent call says; and it says what becomes of the second.
#![tactic(auto)]

ghost use Rattle.std.specs.Prelude.{◌≡◌, ◌++◌, ◌-◌, ◌≤◌, ◌<◌, length, take, drop};
ghost use Rattle.sampler.specs.Samplers.{
  start_playing_of,
  stop_playing_of,
  set_note_speed_of,
  start_recording_of,
  stop_recording_of,
  set_interpolation_of,
  choose_phrase_of,
  delete_phrase_of,
  reset_of,
  change_of,
  Frames,
  framed_of,
  frame_moved,
  ran_of,
  run_answer,
};
ghost use Rattle.sampler.specs.Samplers.{process_sample_of as sample_of, sample_memory};
ghost use Rattle.sampler.specs.Refusals.{frame_judged};
ghost use Rattle.channel.specs.Channels.{process_sample_of, memory_of};
ghost use Rattle.lent_channel.specs.Turns.{heard_of};
ghost use Rattle.lent_sampler.specs.Hearing.{at_volume, done_in, heard_in, moved_in};
ghost use Rattle.plain_channel.specs.Sides.{side_after};
ghost use Rattle.plain_channel.specs.Ahead.{InRun};
ghost use Rattle.plain_sampler.specs.Streams.{PartAlong, to_go};
ghost use Rattle.plain_sampler.specs.Backings.{
  cold_backing,
  change_backing,
  sample_backing,
  frame_backing,
  run_backing,
};

use channel::{Change, Channel, HeadChange};
use common_types::{Note, Params};
use lent_channel::Heard;
use plain_channel::Side;
use refusals::Refusal;
use sampler::{Ran, Sampler};

// What is lent beside the sampler: a side for each channel.
#[derive(Clone, Copy)]
pub struct Backing {
    pub sides: [Side; 2],
}

impl Backing {
    pub fn new() -> Self
        ensures { result ≡ cold_backing }
    {
        let side = Side::new();
        Self {
            sides: [side, side],
        }
    }
}

// Makes a change, and takes the voices that it starts.
pub fn change(s: &mut Sampler, k: &mut Backing, change: Change) -> Result<(), Refusal>
    ensures { (record { sampler = s.new; done = result } ≡ change_of s.old change)
        × (k.new ≡ change_backing s.old change k.old) }
{
    let first = s.channels[0].count;
    let second = s.channels[1].count;
    let done = lent_sampler::change(s, change);
    plain_channel::take(&s.channels[0], &mut k.sides[0], first);
    plain_channel::take(&s.channels[1], &mut k.sides[1], second);
    done
}

pub fn start_playing(
    s: &mut Sampler,
    k: &mut Backing,
    position: f32,
    note: Note,
    velocity: f32,
    params: Params,
) -> Result<(), Refusal>
    ensures { (record { sampler = s.new; done = result }
        ≡ start_playing_of s.old position note velocity params)
        × (k.new
        ≡ change_backing s.old (Change.Start params position note velocity) k.old) }
{
    change(
        s,
        k,
        lent_sampler::start_of(position, note, velocity, params),
    )
}

pub fn stop_playing(
    s: &mut Sampler,
    k: &mut Backing,
    note: Note,
    params: Params,
) -> Result<(), Refusal>
    ensures { (record { sampler = s.new; done = result } ≡ stop_playing_of s.old note params)
        × (k.new ≡ change_backing s.old (Change.Stop params note) k.old) }
{
    change(s, k, lent_sampler::stop_of(note, params))
}

pub fn set_note_speed(
    s: &mut Sampler,
    k: &mut Backing,
    note: Note,
    speed: f32,
) -> Result<(), Refusal>
    ensures { (record { sampler = s.new; done = result } ≡ set_note_speed_of s.old note speed)
        × (k.new ≡ change_backing s.old (Change.Speed note speed) k.old) }
{
    change(s, k, lent_sampler::speed_of(note, speed))
}

pub fn start_recording(s: &mut Sampler, k: &mut Backing) -> Result<(), Refusal>
    ensures { (record { sampler = s.new; done = result } ≡ start_recording_of s.old)
        × (k.new
        ≡ change_backing s.old (Change.Head HeadChange.StartRecording) k.old) }
{
    change(s, k, lent_sampler::recording_started())
}

pub fn stop_recording(s: &mut Sampler, k: &mut Backing) -> Result<(), Refusal>
    ensures { (record { sampler = s.new; done = result } ≡ stop_recording_of s.old)
        × (k.new
        ≡ change_backing s.old (Change.Head HeadChange.StopRecording) k.old) }
{
    change(s, k, lent_sampler::recording_stopped())
}

// 7/12's setting, of every channel.
pub fn set_interpolation(s: &mut Sampler, k: &mut Backing, on: bool) -> Result<(), Refusal>
    ensures { (record { sampler = s.new; done = result } ≡ set_interpolation_of s.old on)
        × (k.new
        ≡ change_backing s.old (Change.Head (HeadChange.Interpolate on)) k.old) }
{
    change(s, k, lent_sampler::interpolation_set(on))
}

// The phrase that recording and starts take.
pub fn choose_phrase(s: &mut Sampler, k: &mut Backing, phrase: u8) -> Result<(), Refusal>
    ensures { (record { sampler = s.new; done = result } ≡ choose_phrase_of s.old phrase)
        × (k.new
        ≡ change_backing s.old (Change.Head (HeadChange.Choose phrase)) k.old) }
{
    change(s, k, lent_sampler::phrase_chosen(phrase))
}

// Empties a phrase that nothing uses.
pub fn delete_phrase(s: &mut Sampler, k: &mut Backing, phrase: u8) -> Result<(), Refusal>
    ensures { (record { sampler = s.new; done = result } ≡ delete_phrase_of s.old phrase)
        × (k.new
        ≡ change_backing s.old (Change.Head (HeadChange.Delete phrase)) k.old) }
{
    change(s, k, lent_sampler::phrase_deleted(phrase))
}

pub fn reset(s: &mut Sampler, k: &mut Backing) -> Result<(), Refusal>
    ensures { (record { sampler = s.new; done = result } ≡ reset_of s.old)
        × (k.new ≡ change_backing s.old Change.Reset k.old) }
{
    change(s, k, lent_sampler::all_reset())
}

// A sample of a channel on the part of the memory from `start` to `end`, at the parameters' volume.
fn part_sample(
    c: &mut Channel,
    side: &mut Side,
    params: Params,
    input: f32,
    memory: &mut [u32],
    start: usize,
    end: usize,
) -> Heard
    requires { (start ≤ end) × (end ≤ length memory.old) }
    ensures { ((result
        ≡ at_volume params (heard_of (process_sample_of params input c.old
        (take (end - start) (drop start memory.old)))))
        × (c.new
        ≡ (process_sample_of params input c.old
        (take (end - start) (drop start memory.old))).channel)
        × (memory.new ≡ take start memory.old
        ++ (memory_of input c.old (take (end - start) (drop start memory.old))
        ++ drop (end - start) (drop start memory.old))))
        × (side.new
        ≡ side_after params input c.old (take (end - start) (drop start memory.old))
        side.old) }
{
    // Each array is read once: what is behind a reference is known to be whole where it is read.
    let _voice = c.voices[0].finished;
    let _hot = side.hots[0].plain;
    let heard = plain_channel::behind(c, side, params, input, &mut memory[start..end], 0, 0.0);
    lent_sampler::at_volume(params, heard)
}

// A sample of one channel.
pub fn process_sample(
    s: &mut Sampler,
    k: &mut Backing,
    channel: usize,
    input: f32,
    params: Params,
    memory: &mut [u32],
) -> Result<Heard, Refusal>
    ensures { ((record {
      sampler = s.new;
      output = (heard_in result).output;
      done = done_in result;
      moved = (heard_in result).moved;
    }
        ≡ sample_of s.old channel input params memory.old)
        × (memory.new ≡ sample_memory s.old channel input params memory.old))
        × (k.new
        ≡ sample_backing s.old channel input params memory.old k.old) }
{
    lent_sampler::sample_judged(s, channel, params, memory.len())?;
    let start = sampler::part_start(channel, s.capacity);
    let end = start + s.capacity;
    Ok(part_sample(
        &mut s.channels[channel],
        &mut k.sides[channel],
        params,
        input,
        memory,
        start,
        end,
    ))
}

// A sample of each channel in turn, each entry of the frame replaced by its output. It and the run are twins of
// lent_sampler's: a trait over the two engines would have this proof's state of the second record in its laws, and lent_sampler's
// none, so that the generic loop would be no plainer; what is played before an entry is proved once, by lent_sampler's laws.
pub fn process_frame(
    s: &mut Sampler,
    k: &mut Backing,
    frame: &mut [f32],
    params: Params,
    memory: &mut [u32],
) -> Result<u8, Refusal>
    ensures { ((done_in result
        ≡ frame_judged s.old (length frame.old) params (length memory.old))
        × Frames (framed_of s.old frame.old params memory.old) s.new
        frame.new memory.new
        × (moved_in result ≡ frame_moved s.old frame.old params memory.old))
        × (k.new
        ≡ frame_backing s.old frame.old params memory.old k.old) }
{
    lent_sampler::frame_judged(s, frame.len(), params, memory.len())?;
    let capacity = s.capacity;
    let mut moved = 0;
    for i in 0..frame.len() {
        let start = sampler::part_start(i, capacity);
        let end = start + capacity;
        let heard = part_sample(
            &mut s.channels[i],
            &mut k.sides[i],
            params,
            frame[i],
            memory,
            start,
            end,
        );
        frame[i] = heard.output;
        moved += heard.moved;
    }
    Ok(moved)
}

// A sample of a run on a channel's part of the memory, with so many to go, at the parameters' volume.
fn part_along(
    c: &mut Channel,
    side: &mut Side,
    params: Params,
    input: f32,
    memory: &mut [u32],
    start: usize,
    end: usize,
    togo: usize,
) -> Heard
    requires { (start ≤ end) × (end ≤ length memory.old)
        × InRun params (take (end - start) (drop start memory.old)) togo c.old side.old }
    ensures { PartAlong params input start end togo c.old side.old memory.old result
        c.new side.new memory.new }
{
    let heard = plain_channel::along(c, side, params, input, &mut memory[start..end], togo);
    lent_sampler::at_volume(params, heard)
}

// How many samples the channel of entry i has to go, that one among them, of n entries.
fn to_go(i: usize, n: usize, count: usize) -> usize
    requires { i < n }
    ensures { result ≡ to_go i n count }
{
    if count == 1 {
        return n - i;
    }
    (n - i - 1) / 2 + 1
}

// A run of frames: entry i * count + j is channel j's of frame i. Where voices ease, they are played ahead of the others.
pub fn process_frames(
    s: &mut Sampler,
    k: &mut Backing,
    run: &mut [f32],
    params: Params,
    memory: &mut [u32],
) -> Ran
    ensures { ((result
        ≡ run_answer s.old (length run.old) params (length memory.old))
        × Frames (ran_of s.old run.old params memory.old) s.new
        run.new memory.new)
        × (k.new
        ≡ run_backing s.old run.old params memory.old k.old) }
{
    let ran = lent_sampler::run_answer(s, run.len(), params, memory.len());
    let n = ran.frames * s.count;
    let capacity = s.capacity;
    plain_channel::rest(&mut k.sides[0]);
    plain_channel::rest(&mut k.sides[1]);
    for i in 0..n {
        let j = lent_sampler::run_channel(i, s.count);
        let start = sampler::part_start(j, capacity);
        let end = start + capacity;
        let togo = to_go(i, n, s.count);
        let heard = part_along(
            &mut s.channels[j],
            &mut k.sides[j],
            params,
            run[i],
            memory,
            start,
            end,
            togo,
        );
        run[i] = heard.output;
    }
    plain_channel::rest(&mut k.sides[0]);
    plain_channel::rest(&mut k.sides[1]);
    ran
}
