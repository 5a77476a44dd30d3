// A host, as small as it can be: it sets the engine up, records a frame, presses a key, plays a frame, lets the key go,
// and asks what sounds. `rt ci coupling` proves it, runs it, and holds what it prints to the file `stdout`.
#![tactic(auto)]

ghost use Rattle.std.specs.Prelude.{◌≡◌, length};
ghost use Rattle.sampler.specs.Refusals.{frame_judged};
ghost use Rattle.sampler.specs.Samplers.{Frames, framed_of, frame_moved, change_of};
ghost use Rattle.lent_sampler.specs.Hearing.{done_in, moved_in};
ghost use Rattle.coupling.specs.Coupling.{no_passthru, key, settings, frame_recorded, pressed_of, told_of};

use channel::{Change, HeadChange};
use common_types::{InitParams, Note, Params};
use own_sampler::FramePlayed;
use questions::VoiceInfos;
use refusals::Refusal;
use sampler::{Answer, Sampler};
use std::io;

// The Rust's defaults, but that a key sounds at its level at once and the input isn't passed on.
fn params() -> Params
    ensures { result ≡ settings }
{
    let mut params = Params::default();
    params.attack_samples = 0;
    params.auto_passthru = false;
    params
}

// Set-up, and one frame recorded. The frame's entries become outputs.
fn recorded(frame: &mut [f32], memory: &mut [u32]) -> Sampler
    ensures { Frames (frame_recorded frame.old memory.old) result frame.new
        memory.new }
{
    let init = InitParams {
        auto_passthru: false,
    };
    let s = Sampler::new(2, init, memory).sampler;
    let s = changed(s, Change::Head(HeadChange::StartRecording)).sampler;
    sounded(s, frame, params(), memory).sampler
}

// The recording ends, and a key is pressed.
fn pressed(s: Sampler) -> Sampler
    ensures { result ≡ pressed_of s }
{
    let s = changed(s, Change::Head(HeadChange::StopRecording)).sampler;
    let start = Change::Start {
        params: params(),
        position: 0.0,
        note: Note::new(60, 0),
        velocity: 1.0,
    };
    changed(s, start).sampler
}

// A key or the recorder's switch, on the host's own record, which it lends for the call.
fn changed(mut s: Sampler, change: Change) -> Answer
    ensures { result ≡ change_of s change }
{
    let done = lent_sampler::change(&mut s, change);
    Answer { sampler: s, done }
}

// One frame is played on the host's own record, which it lends for the call: own_sampler's call once more, to show how.
fn sounded(mut s: Sampler, frame: &mut [f32], params: Params, memory: &mut [u32]) -> FramePlayed
    ensures { (done_in result.done
        ≡ frame_judged s (length frame.old) params (length memory.old))
        × Frames (framed_of s frame.old params memory.old) result.sampler frame.new
        memory.new × (moved_in result.done ≡ frame_moved s frame.old params memory.old) }
{
    let done = lent_sampler::process_frame(&mut s, frame, params, memory);
    FramePlayed { sampler: s, done }
}

// The key is let go. What sounds on channel 0?
fn told(s: Sampler) -> Result<VoiceInfos, Refusal>
    ensures { result ≡ told_of s }
{
    let stop = Change::Stop {
        params: params(),
        note: Note::new(60, 0),
    };
    let s = changed(s, stop).sampler;
    questions::get_voice_info(s, 0, params(), 32)
}

fn print(rt: &impl Print, output: f32) -> io::Result<()> {
    let bits = binary32::to_bits(output);
    println!(rt; "{bits:08x}")
}

fn main(rt: HostRuntime) -> io::Result<()> {
    let mut memory = [0u32; 8192];
    let mut input = [0.5, 0.25];
    let s = recorded(&mut input, &mut memory);
    let mut output = [0.0, 0.0];
    let s = sounded(pressed(s), &mut output, params(), &mut memory).sampler;
    print(&rt, output[0])?;
    print(&rt, output[1])?;
    let count = match told(s) {
        Ok(voices) => voices.count,
        Err(_) => 0,
    };
    rt.println(count)
}
