// The sampler by value: every public call, with the refusals of document 01's table. Each takes every value of its
// arguments, and equals a definition in specs/. On a refusal the record and what is lent with it hold what they held.
#![tactic(auto)]

ghost use Rattle.std.specs.Prelude.{◌≡◌, ◌+◌, ◌*◌, ◌/◌, ◌%◌, ◌≤◌, ◌<◌, min, ◌&&◌, leb, length, take, Ok};
ghost use Rattle.std.specs.Float.Ieee.{le};
ghost use Rattle.binary32.specs.Leaves.{zero32, one32};
ghost use Rattle.std.specs.List.{list_any, list_all};
ghost use Rattle.channel.specs.declared.Change.TheVariants.{Head};
ghost use Rattle.channel.specs.declared.HeadChange.TheVariants.{Load};
ghost use Rattle.channel.specs.Channels.{good_channel};
ghost use Rattle.sampler.specs.Refusals.{
  present,
  channel_at,
  good_sizes,
  good_sampler,
  capacity_of,
  good_with,
  any_recording,
  against_any,
  at_end,
  set_up_judged,
  asked_of,
  start_rows,
  stop_rows,
  speed_rows,
  head_rows,
  change_rows,
  gather_judged,
  sample_judged,
  frame_asked_of,
  frame_rows,
  frame_judged,
  latest_of,
  frames_left,
  run_asked_of,
  run_rows,
  run_done,
};
ghost use Rattle.sampler.specs.Samplers.{
  set_up_of,
  each_of,
  answer_of,
  change_of,
  start_playing_of,
  stop_playing_of,
  set_note_speed_of,
  start_recording_of,
  stop_recording_of,
  set_interpolation_of,
  choose_phrase_of,
  delete_phrase_of,
  reset_of,
  gathered_all,
  gather_of,
  gather_memory,
  channel_stepped_of,
  output_of,
  moved_at,
  memory_at,
  process_sample_of,
  sample_memory,
  Ready,
  Steps,
  Frames,
  framed,
  entries_of,
  entries_moved,
  framed_of,
  frame_moved,
  Turns,
  frames_of,
  ran_of,
  run_answer,
};

use channel::{Against, Ask, Change, Channel, HeadChange};
pub use common_types::LoopMode;
use common_types::{InitParams, Note, Params};
use refusals::Refusal;

// The most samples a channel holds.
const MOST_SAMPLES: usize = 0x40_0000;

// The channels are the first `count` of the two; each owns a part of the lent memory of `capacity` samples.
#[derive(Clone, Copy)]
pub struct Sampler {
    pub channels: [Channel; 2],
    pub count: usize,
    pub capacity: usize,
}

// What a call leaves, and whether it was refused. These answers stay structs, and are no `Result<Sampler, Refusal>`: a call
// by value hands the record back on a refusal too, as it was.
#[derive(Clone, Copy)]
pub struct Answer {
    pub sampler: Sampler,
    pub done: Result<(), Refusal>,
}

// What a sample leaves and its output, whether it was refused, and how many voices moved up as others left.
#[derive(Clone, Copy)]
pub struct SampleAnswer {
    pub sampler: Sampler,
    pub output: f32,
    pub done: Result<(), Refusal>,
    pub moved: u8,
}

// What a frame leaves, whether it was refused, and how many voices of its channels moved up.
#[derive(Clone, Copy)]
pub struct FrameAnswer {
    pub sampler: Sampler,
    pub done: Result<(), Refusal>,
    pub moved: u8,
}

// The frames of a run that are done, and whether it was refused: at a clock's end some frames are done all the same.
#[derive(Clone, Copy)]
pub struct Ran {
    pub frames: usize,
    pub done: Result<(), Refusal>,
}

// What a run of frames leaves, and what it answers.
#[derive(Clone, Copy)]
pub struct RunAnswer {
    pub sampler: Sampler,
    pub ran: Ran,
}

// What the rows of a change ask of a record: whether it is good, and what its channels have against the change. Each
// engine answers in its own way, and the rows stand once.
#[derive(Clone, Copy)]
pub struct Asked {
    pub good: bool,
    pub against: Against,
}

// What those of a frame ask: whether record and memory are good, how many channels there are, and whether the clock of
// one that would be stepped stands at its end.
#[derive(Clone, Copy)]
pub struct FrameAsked {
    pub good: bool,
    pub count: usize,
    pub ended: bool,
}

// What those of a run of frames ask: the same, and how many frames there is room for.
#[derive(Clone, Copy)]
pub struct RunAsked {
    pub good: bool,
    pub count: usize,
    pub room: usize,
}

#[derive(Clone, Copy)]
struct Stepped {
    sampler: Sampler,
    output: f32,
    moved: u8,
}

#[derive(Clone, Copy)]
struct Entered {
    sampler: Sampler,
    moved: u8,
}

#[tactic(auto, unfolding(crate::specs::Refusals::good_sizes))]
pub fn good_sizes(count: usize, capacity: usize) -> bool
    ensures { result ≡ good_sizes count capacity }
{
    ((count == 1) | (count == 2)) & (1 <= capacity) & (capacity <= MOST_SAMPLES)
}

#[tactic(auto, unfolding(crate::specs::Refusals::capacity_of))]
fn capacity_of(count: usize, size: usize) -> usize
    ensures { result ≡ capacity_of count size }
{
    if count == 0 {
        return 0;
    }
    (size / count).min(MOST_SAMPLES)
}

// Where channel j's part of the memory begins; the second's for every j above it.
pub fn part_start(j: usize, capacity: usize) -> usize
    ensures { result ≡ min j 1 * capacity }
{
    if j == 0 { 0 } else { capacity }
}

impl Sampler {
    pub fn new(channel_count: usize, params: InitParams, memory: &[u32]) -> Answer
        ensures { result ≡ set_up_of channel_count params (length memory.now) }
    {
        let c = Channel::new(params);
        let capacity = capacity_of(channel_count, memory.len());
        if good_sizes(channel_count, capacity) {
            Answer {
                sampler: Sampler {
                    channels: [c, c],
                    count: channel_count,
                    capacity,
                },
                done: Ok(()),
            }
        } else {
            Answer {
                sampler: Sampler {
                    channels: [c, c],
                    count: 0,
                    capacity: 0,
                },
                done: Err(Refusal::Broken),
            }
        }
    }

    // The first n channels: never more than the array has.
    #[tactic(auto, using(walks::proofs::Lists::Loops::take_most))]
    pub fn first(&self, n: usize) -> &[Channel]
        ensures { result.now ≡ take n self.now.channels }
    {
        &self.channels[..n.min(2)]
    }

    // The channels in use.
    pub fn present(&self) -> &[Channel]
        ensures { result.now ≡ present self.now }
    {
        self.first(self.count)
    }

    fn good_channels(self) -> bool
        ensures { result ≡ list_all (good_channel self.capacity) (present self) }
    {
        self.present().iter().all(|c| c.good(self.capacity))
    }

    // Whether the record is not broken (row 9).
    #[tactic(auto, unfolding(crate::specs::Refusals::good_sampler))]
    pub fn good(self) -> bool
        ensures { result ≡ good_sampler self }
    {
        good_sizes(self.count, self.capacity) && self.good_channels()
    }

    #[tactic(auto, unfolding(crate::specs::Refusals::against_any))]
    fn blocked(self, ask: Ask) -> bool
        ensures { result ≡ (against_any ask self).blocked }
    {
        self.present()
            .iter()
            .any(|c| c.against(ask, self.capacity).blocked)
    }

    #[tactic(auto, unfolding(crate::specs::Refusals::against_any))]
    fn short(self, ask: Ask) -> bool
        ensures { result ≡ (against_any ask self).short }
    {
        self.present()
            .iter()
            .any(|c| c.against(ask, self.capacity).short)
    }

    // What the channels in use have against what a change asks.
    #[tactic(auto, unfolding(crate::specs::Refusals::against_any))]
    pub fn against(self, ask: Ask) -> Against
        ensures { result ≡ against_any ask self }
    {
        Against {
            blocked: self.blocked(ask),
            short: self.short(ask),
        }
    }

    // Whether one of the channels in use records.
    pub fn any_recording(&self) -> bool
        ensures { result ≡ any_recording self.now }
    {
        self.present().iter().any(|c| c.head.is_recording())
    }

    // Whether the clock of one of the first n channels stands at its end.
    pub fn any_at_end(&self, n: usize) -> bool
        ensures { result ≡ list_any at_end (take n self.now.channels) }
    {
        self.first(n)
            .iter()
            .any(|c| channel::LAST_TIME <= c.head.now)
    }

    // The largest clock of the channels in use.
    #[tactic(auto, unfolding(crate::specs::Refusals::latest_of))]
    fn latest(&self) -> usize
        ensures { result ≡ latest_of (present self.now) }
    {
        self.present()
            .iter()
            .fold(0, |time, c| time.max(c.head.now))
    }

    // The frames that are left until a clock stands at its end.
    #[tactic(auto, unfolding(crate::specs::Refusals::frames_left))]
    pub fn room(&self) -> usize
        ensures { result ≡ frames_left self.now }
    {
        channel::LAST_TIME.saturating_sub(self.latest())
    }

    fn each(mut self, change: Change) -> Sampler
        ensures { result ≡ each_of change self }
    {
        let n = self.count.min(2);
        for j in 0..n {
            self.channels[j] = self.channels[j].changed(change);
        }
        self
    }

    // Each channel with a recording of so many samples, by a walk of its own: as a caller of `each` a read would have what
    // a key does to a channel compiled apart, and every key take more stack.
    pub fn loaded(mut self, samples: usize) -> Sampler
        ensures { result ≡ each_of (Head (Load samples)) self }
    {
        let n = self.count.min(2);
        for j in 0..n {
            self.channels[j] = self.channels[j].head_changed(HeadChange::Load(samples));
        }
        self
    }

    #[tactic(auto, unfolding(crate::specs::Refusals::gather_judged))]
    fn gather_judged(self, size: usize) -> Result<(), Refusal>
        ensures { result ≡ gather_judged self size }
    {
        Refusal::Broken.when(!self.good_with(size))?;
        Refusal::PhraseRecording.when(self.any_recording())
    }

    // Moves the phrases of each channel down, so that all free room of its part is behind them.
    pub fn gather(self, memory: &mut [u32]) -> Answer
        ensures value { result ≡ gather_of self memory.old }
        ensures memory_after { memory.new ≡ gather_memory self memory.old }
    {
        let done = self.gather_judged(memory.len());
        let sampler = if done.is_ok() {
            self.gathered(memory)
        } else {
            self
        };
        Answer { sampler, done }
    }

    // Each channel in use gathered on its part of the memory.
    fn gathered(mut self, memory: &mut [u32]) -> Sampler
        requires { Steps self self.count (length memory.old) }
        ensures value { result ≡ (gathered_all self memory.old).sampler }
        ensures memory_after { memory.new ≡ (gathered_all self memory.old).memory }
    {
        let capacity = self.capacity;
        let n = self.count;
        for j in 0..n {
            let start = part_start(j, capacity);
            let end = start + capacity;
            self.channels[j] = self.channels[j].gathered(&mut memory[start..end]);
        }
        self
    }

    // The change where it isn't refused.
    #[tactic(auto, unfolding(crate::specs::Samplers::answer_of))]
    fn answer(self, done: Result<(), Refusal>, change: Change) -> Answer
        ensures { result ≡ answer_of done change self }
    {
        let sampler = if done.is_ok() {
            self.each(change)
        } else {
            self
        };
        Answer { sampler, done }
    }

    // What the rows of a change ask of the record.
    fn asked(self, change: Change) -> Asked
        ensures { result ≡ asked_of self change }
    {
        let against = self.against(channel::asks(change));
        Asked {
            good: self.good(),
            against,
        }
    }

    // Whether the record is good, and memory of that size long enough for it.
    #[tactic(auto, unfolding(crate::specs::Refusals::good_with))]
    pub fn good_with(self, size: usize) -> bool
        ensures { result ≡ good_with self size }
    {
        self.good() && enough(self.count, self.capacity, size)
    }

    fn at_end(self, channel: usize) -> bool
        ensures { result ≡ at_end (channel_at self channel) }
    {
        channel < 2 && channel::LAST_TIME <= self.channels[channel].head.now
    }

    #[tactic(auto, unfolding(crate::specs::Refusals::sample_judged))]
    fn sample_judged(self, channel: usize, params: Params, size: usize) -> Result<(), Refusal>
        ensures { result ≡ sample_judged self channel params size }
    {
        Refusal::Broken.when(!self.good_with(size))?;
        Refusal::NoChannel.when(!(channel < self.count))?;
        Refusal::BeyondLimits.when(params.beyond_limits())?;
        Refusal::ClockEnd.when(self.at_end(channel))
    }

    fn frame_asked(self, entries: usize, size: usize) -> FrameAsked
        ensures { result ≡ frame_asked_of self entries size }
    {
        let ended = self.any_at_end(entries);
        FrameAsked {
            good: self.good_with(size),
            count: self.count,
            ended,
        }
    }

    fn run_asked(self, size: usize) -> RunAsked
        ensures { result ≡ run_asked_of self size }
    {
        let room = self.room();
        RunAsked {
            good: self.good_with(size),
            count: self.count,
            room,
        }
    }

    // The call that makes a change of every channel, all or none. Those below are it under their names.
    pub fn changed(self, change: Change) -> Answer
        ensures { result ≡ change_of self change }
    {
        self.answer(change_rows(self.asked(change), change), change)
    }

    pub fn start_playing(self, position: f32, note: Note, velocity: f32, params: Params) -> Answer
        ensures { result ≡ start_playing_of self position note velocity params }
    {
        self.changed(Change::Start {
            params,
            position,
            note,
            velocity,
        })
    }

    pub fn stop_playing(self, note: Note, params: Params) -> Answer
        ensures { result ≡ stop_playing_of self note params }
    {
        self.changed(Change::Stop { params, note })
    }

    pub fn set_note_speed(self, note: Note, speed: f32) -> Answer
        ensures { result ≡ set_note_speed_of self note speed }
    {
        self.changed(Change::Speed { note, speed })
    }

    pub fn set_interpolation(self, on: bool) -> Answer
        ensures { result ≡ set_interpolation_of self on }
    {
        self.changed(Change::Head(HeadChange::Interpolate(on)))
    }

    pub fn start_recording(self) -> Answer
        ensures { result ≡ start_recording_of self }
    {
        self.changed(Change::Head(HeadChange::StartRecording))
    }

    pub fn stop_recording(self) -> Answer
        ensures { result ≡ stop_recording_of self }
    {
        self.changed(Change::Head(HeadChange::StopRecording))
    }

    // The phrase of that number is recorded and started from here on.
    pub fn choose_phrase(self, phrase: u8) -> Answer
        ensures { result ≡ choose_phrase_of self phrase }
    {
        self.changed(Change::Head(HeadChange::Choose(phrase)))
    }

    // Empties a phrase that nothing uses.
    pub fn delete_phrase(self, phrase: u8) -> Answer
        ensures { result ≡ delete_phrase_of self phrase }
    {
        self.changed(Change::Head(HeadChange::Delete(phrase)))
    }

    pub fn reset(self) -> Answer
        ensures { result ≡ reset_of self }
    {
        self.changed(Change::Reset)
    }

    // A sample of channel j, on its part of the memory.
    fn step(mut self, j: usize, params: Params, input: f32, memory: &mut [u32]) -> Stepped
        requires { Ready self j (length memory.old) }
        ensures sampler_value { result.sampler ≡ channel_stepped_of self j params input memory.old }
        ensures output_value { result.output ≡ output_of self j params input memory.old }
        ensures moved_value { result.moved ≡ moved_at self j params input memory.old }
        ensures moved_bound { result.moved ≤ 32 }
        ensures memory_after { memory.new ≡ memory_at self j input memory.old }
    {
        let start = part_start(j, self.capacity);
        let end = start + self.capacity;
        let played = self.channels[j].with_sample(params, input, &mut memory[start..end]);
        self.channels[j] = played.channel;
        Stepped {
            sampler: self,
            output: params.volume * played.output,
            moved: played.moved,
        }
    }

    pub fn process_sample(
        self,
        channel: usize,
        input: f32,
        params: Params,
        memory: &mut [u32],
    ) -> SampleAnswer
        ensures value { result ≡ process_sample_of self channel input params memory.old }
        ensures memory_after { memory.new ≡ sample_memory self channel input params memory.old }
    {
        let done = self.sample_judged(channel, params, memory.len());
        if !done.is_ok() {
            return SampleAnswer {
                sampler: self,
                output: 0.0,
                done,
                moved: 0,
            };
        }
        let stepped = self.step(channel, params, input, memory);
        SampleAnswer {
            sampler: stepped.sampler,
            output: stepped.output,
            done,
            moved: stepped.moved,
        }
    }

    // A sample of each channel in turn, each entry of the frame replaced by its output.
    fn entries(mut self, frame: &mut [f32], params: Params, memory: &mut [u32]) -> Entered
        requires { Steps self (length frame.old) (length memory.old) }
        ensures frames { Frames
            (entries_of params (length frame.old) 0 (framed self frame.old memory.old))
            result.sampler frame.new memory.new }
        ensures moved_value { result.moved
            ≡ entries_moved params (length frame.old) 0
            (framed self frame.old memory.old) }
    {
        let mut moved = 0;
        for j in 0..frame.len() {
            let stepped = self.step(j, params, frame[j], memory);
            self = stepped.sampler;
            frame[j] = stepped.output;
            moved += stepped.moved;
        }
        Entered {
            sampler: self,
            moved,
        }
    }

    pub fn process_frame(self, frame: &mut [f32], params: Params, memory: &mut [u32]) -> FrameAnswer
        ensures done_value { result.done
            ≡ frame_judged self (length frame.old) params (length memory.old) }
        ensures frames { Frames (framed_of self frame.old params memory.old) result.sampler
            frame.new memory.new }
        ensures moved_value { result.moved ≡ frame_moved self frame.old params memory.old }
    {
        let asked = self.frame_asked(frame.len(), memory.len());
        let done = frame_rows(asked, frame.len(), params);
        if !done.is_ok() {
            return FrameAnswer {
                sampler: self,
                done,
                moved: 0,
            };
        }
        let entered = self.entries(frame, params, memory);
        FrameAnswer {
            sampler: entered.sampler,
            done,
            moved: entered.moved,
        }
    }

    // The first k frames of a run in turn, each entry replaced by its output.
    fn frames(mut self, k: usize, run: &mut [f32], params: Params, memory: &mut [u32]) -> Sampler
        requires { Turns self k (length run.old) (length memory.old) }
        ensures { Frames (frames_of params k (framed self run.old memory.old)) result
            run.new memory.new }
    {
        let count = self.count;
        let mut a = 0;
        for _ in 0..k {
            let b = a + count;
            let entered = self.entries(&mut run[a..b], params, memory);
            self = entered.sampler;
            a = b;
        }
        self
    }

    // Entry i * count + j of the run is channel j's of frame i. Record, memory and parameters are tested once.
    pub fn process_frames(self, run: &mut [f32], params: Params, memory: &mut [u32]) -> RunAnswer
        ensures ran_value { result.ran ≡ run_answer self (length run.old) params (length memory.old) }
        ensures frames { Frames (ran_of self run.old params memory.old) result.sampler
            run.new memory.new }
    {
        let ran = run_done(self.run_asked(memory.len()), run.len(), params);
        let sampler = self.frames(ran.frames, run, params, memory);
        RunAnswer { sampler, ran }
    }
}

#[tactic(auto, unfolding(crate::specs::Refusals::start_rows))]
fn start_rows(asked: Asked, position: f32, note: Note, params: Params) -> Result<(), Refusal>
    ensures { result ≡ start_rows asked position note params }
{
    Refusal::Broken.when(!asked.good)?;
    Refusal::BadNote.when(note.channel > 15)?;
    Refusal::BadPosition.when(!in_range(position))?;
    Refusal::BeyondLimits.when(params.beyond_limits())?;
    Refusal::Full.when(asked.against.blocked)
}

#[tactic(auto, unfolding(crate::specs::Refusals::stop_rows))]
fn stop_rows(asked: Asked, note: Note, params: Params) -> Result<(), Refusal>
    ensures { result ≡ stop_rows asked note params }
{
    Refusal::Broken.when(!asked.good)?;
    Refusal::BadNote.when(note.channel > 15)?;
    Refusal::BeyondLimits.when(params.beyond_limits())
}

#[tactic(auto, unfolding(crate::specs::Refusals::speed_rows))]
fn speed_rows(asked: Asked, note: Note) -> Result<(), Refusal>
    ensures { result ≡ speed_rows asked note }
{
    Refusal::Broken.when(!asked.good)?;
    Refusal::BadNote.when(note.channel > 15)
}

// The rows of a change of the heads behind row 9.
fn head_rows(asked: Asked, change: HeadChange) -> Result<(), Refusal>
    ensures { result ≡ head_rows asked change }
{
    match change {
        HeadChange::StartRecording => Ok(()),
        HeadChange::StopRecording => Ok(()),
        HeadChange::Interpolate(_) => Ok(()),
        HeadChange::Load(_) => {
            Refusal::Recording.when(asked.against.blocked)?;
            Refusal::NoRoom.when(asked.against.short)
        }
        HeadChange::Choose(k) => {
            Refusal::NoPhrase.when(8 <= k)?;
            Refusal::PhraseRecording.when(asked.against.blocked)
        }
        HeadChange::Delete(k) => {
            Refusal::NoPhrase.when(8 <= k)?;
            Refusal::PhraseInUse.when(asked.against.blocked)
        }
    }
}

// Whether a change is refused, from what its rows ask of a record.
pub fn change_rows(asked: Asked, change: Change) -> Result<(), Refusal>
    ensures { result ≡ change_rows asked change }
{
    match change {
        Change::Start {
            params,
            position,
            note,
            ..
        } => start_rows(asked, position, note, params),
        Change::Stop { params, note } => stop_rows(asked, note, params),
        Change::Speed { note, .. } => speed_rows(asked, note),
        Change::Head(change) => {
            Refusal::Broken.when(!asked.good)?;
            head_rows(asked, change)
        }
        Change::Reset => Refusal::Broken.when(!asked.good),
    }
}

// Whether a frame is refused.
pub fn frame_rows(asked: FrameAsked, entries: usize, params: Params) -> Result<(), Refusal>
    ensures { result ≡ frame_rows asked entries params }
{
    Refusal::Broken.when(!asked.good)?;
    Refusal::NoChannel.when(asked.count < entries)?;
    Refusal::BeyondLimits.when(params.beyond_limits())?;
    Refusal::ClockEnd.when(asked.ended)
}

// How many whole frames so many entries are: none for a broken record that says that it has no channels.
fn frames_of(entries: usize, count: usize) -> usize
    ensures { result ≡ entries / count }
{
    if count == 0 {
        return 0;
    }
    entries / count
}

// The entries behind these.
fn left_over(entries: usize, count: usize) -> usize
    ensures { result ≡ entries % count }
{
    if count == 0 {
        return entries;
    }
    entries % count
}

fn run_rows(asked: RunAsked, entries: usize, params: Params) -> Result<(), Refusal>
    ensures { result ≡ run_rows asked entries params }
{
    Refusal::Broken.when(!asked.good)?;
    Refusal::BadRun.when(left_over(entries, asked.count) != 0)?;
    Refusal::BeyondLimits.when(params.beyond_limits())?;
    Refusal::ClockEnd.when(asked.room < frames_of(entries, asked.count))
}

// What a run of frames answers.
#[tactic(auto, unfolding(crate::specs::Refusals::run_done))]
pub fn run_done(asked: RunAsked, entries: usize, params: Params) -> Ran
    ensures { result ≡ run_done asked entries params }
{
    let done = run_rows(asked, entries, params);
    let frames = match done {
        Ok(()) | Err(Refusal::ClockEnd) => frames_of(entries, asked.count).min(asked.room),
        Err(_) => 0,
    };
    Ran { frames, done }
}

// From 0 to 1, which NaN is not.
pub fn in_range(position: f32) -> bool
    ensures { result ≡ (le zero32 position && le position one32) }
{
    (0.0 <= position) & (position <= 1.0)
}

// Whether memory of that size holds so many parts. A good record has one or two: for these no quotient is waited for.
pub fn enough(count: usize, capacity: usize, size: usize) -> bool
    ensures { result ≡ leb (count * capacity) size }
{
    if count == 1 {
        capacity <= size
    } else if count == 2 {
        capacity <= size / 2
    } else if count == 0 {
        true
    } else {
        capacity <= size / count
    }
}
