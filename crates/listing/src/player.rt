// What each call of a listing does to the engine, and the line that it prints.
ghost use Rattle.std.specs.Prelude.{◌≡◌, [], ◌∷◌};
ghost use Rattle.listing.specs.Steps.{
  clock_of,
  voices_of,
  answer_played,
  settings_of,
  framed_by,
  frame_of,
  call_played,
  memory_after,
};

use crate::records::Call;
use crate::texts::{answer_line, mono_line, stereo_line};
use common_types::Params;
use decimal::Line;
use refusals::{Refusal, code};
use sampler::{Answer, Sampler};

#[derive(Clone, Copy)]
pub struct Player {
    pub sampler: Sampler,
    pub params: Params,
}

#[derive(Clone, Copy)]
pub struct Played {
    pub player: Player,
    pub line: Line,
}

fn clock(s: Sampler) -> usize
    ensures { result ≡ clock_of s }
{
    s.channels[0].head.now
}

fn voices(s: Sampler) -> usize
    ensures { result ≡ voices_of s }
{
    s.channels[0].count
}

fn answered(kind: u8, params: Params, a: Answer) -> Played
    ensures { result ≡ answer_played kind params a }
{
    Played {
        player: Player {
            sampler: a.sampler,
            params,
        },
        line: answer_line(kind, code(a.done)),
    }
}

impl Player {
    fn settings(self, params: Params) -> Played
        ensures { result ≡ settings_of self params }
    {
        let sampler = self.sampler;
        if params.beyond_limits() {
            let done = Err(Refusal::BeyondLimits);
            answered(0, self.params, Answer { sampler, done })
        } else {
            answered(
                0,
                params,
                Answer {
                    sampler,
                    done: Ok(()),
                },
            )
        }
    }

    fn mono(self, input: f32, memory: &mut [u32]) -> Played
        ensures value { result ≡ frame_of self (input ∷ []) memory.old }
        ensures memory_after { memory.new ≡ (framed_by self (input ∷ []) memory.old).memory }
    {
        let params = self.params;
        let before = clock(self.sampler);
        let mut frame = [input];
        let a = own_sampler::process_frame(self.sampler, &mut frame, params, memory);
        let sampler = a.sampler;
        match a.done {
            Ok(_) => Played {
                player: Player { sampler, params },
                line: mono_line(before, frame[0], voices(sampler)),
            },
            Err(refusal) => {
                let done = Err(refusal);
                answered(6, params, Answer { sampler, done })
            }
        }
    }

    fn stereo(self, first: f32, second: f32, memory: &mut [u32]) -> Played
        ensures value { result ≡ frame_of self (first ∷ second ∷ []) memory.old }
        ensures memory_after { memory.new ≡ (framed_by self (first ∷ second ∷ []) memory.old).memory }
    {
        let params = self.params;
        let before = clock(self.sampler);
        let mut frame = [first, second];
        let a = own_sampler::process_frame(self.sampler, &mut frame, params, memory);
        let sampler = a.sampler;
        match a.done {
            Ok(_) => Played {
                player: Player { sampler, params },
                line: stereo_line(before, frame[0], frame[1], voices(sampler)),
            },
            Err(refusal) => {
                let done = Err(refusal);
                answered(6, params, Answer { sampler, done })
            }
        }
    }

    pub fn play(self, call: Call, memory: &mut [u32]) -> Played
        ensures value { result ≡ call_played self call memory.old }
        ensures memory_after { memory.new ≡ memory_after self call memory.old }
    {
        let s = self.sampler;
        let p = self.params;
        match call {
            Call::Parameters(params) => self.settings(params),
            Call::Start {
                note,
                position,
                velocity,
            } => answered(1, p, s.start_playing(position, note, velocity, p)),
            Call::Stop { note } => answered(2, p, s.stop_playing(note, p)),
            Call::Speed { note, speed } => answered(3, p, s.set_note_speed(note, speed)),
            Call::StartRecording => answered(4, p, s.start_recording()),
            Call::StopRecording => answered(5, p, s.stop_recording()),
            Call::Mono { input } => self.mono(input, memory),
            Call::Stereo { first, second } => self.stereo(first, second, memory),
            Call::Reset => answered(7, p, s.reset()),
        }
    }
}
