// The per-frame call and the run of frames on a record by value, played where the record stands: it is lent to the call
// of `lent_sampler`, which copies no channel. The contract is that of the call by value.
#![tactic(auto)]

ghost use Rattle.std.specs.Prelude.{◌≡◌, length};
ghost use Rattle.sampler.specs.Refusals.{frame_judged};
ghost use Rattle.sampler.specs.Samplers.{Frames, framed_of, frame_moved, ran_of, run_answer};
ghost use Rattle.lent_sampler.specs.Hearing.{done_in, moved_in};

use common_types::Params;
use refusals::Refusal;
use sampler::{RunAnswer, Sampler};

// What a frame leaves, and what it answers: how many voices of its channels moved up, or why it is refused.
#[derive(Clone, Copy)]
pub struct FramePlayed {
    pub sampler: Sampler,
    pub done: Result<u8, Refusal>,
}

pub fn process_frame(
    mut s: Sampler,
    frame: &mut [f32],
    params: Params,
    memory: &mut [u32],
) -> FramePlayed
    ensures { (done_in result.done
        ≡ frame_judged s (length frame.old) params (length memory.old))
        × Frames (framed_of s frame.old params memory.old) result.sampler frame.new
        memory.new × (moved_in result.done ≡ frame_moved s frame.old params memory.old) }
{
    let done = lent_sampler::process_frame(&mut s, frame, params, memory);
    FramePlayed { sampler: s, done }
}

pub fn process_frames(
    mut s: Sampler,
    run: &mut [f32],
    params: Params,
    memory: &mut [u32],
) -> RunAnswer
    ensures { (result.ran ≡ run_answer s (length run.old) params (length memory.old))
        × Frames (ran_of s run.old params memory.old) result.sampler run.new
        memory.new }
{
    let ran = lent_sampler::process_frames(&mut s, run, params, memory);
    RunAnswer { sampler: s, ran }
}
