// One voice, and what it does in one sample. Each function takes every value of its arguments, and equals a definition
// in specs/Voices.antt.
#![tactic(auto)]

ghost use Rattle.std.specs.Prelude.{◌≡◌, cond};
ghost use Rattle.clip.specs.Positions.{sounding_of};
ghost use Rattle.voice.specs.Voices.{
  span_by,
  tick_with,
  tick_of,
  clip_mode_of,
  plays_once_of,
  late_of,
  over_of,
  should_remove_of,
  recorded_value_of,
  between_of,
  value_at,
  moved_of,
  sounded_of,
  finish_of,
  played_out_of,
  ended_of,
  volume_stepped,
  faded_of,
  turn_of,
  fresh_of,
  blank_voice,
  at_speed_of,
  good_voice,
};
ghost use Rattle.voice.specs.Gliding.{goes_on_of, QuickBeside, QuickValue, quick_at, Quickly};

use clip::{Clip, Mode, Near, Position, Sounding};
use common_types::{LoopMode, Measure, Note, NoteOffBehaviour, Params};
use volume::{Volume, since};

// The fields stand in an order that leaves no gaps between them.
#[derive(Clone, Copy)]
pub struct Voice {
    pub finished_at: usize,
    pub last_sample_index: usize,
    pub clip2: Clip,
    pub volume: Volume,
    pub loop_start_percent: f32,
    pub played: f32,
    pub last_sample_value: f32,
    pub speed: f32,
    pub note: Note,
    pub finished: bool,
    pub is_at_zero_crossing: bool,
    pub phrase: u8,
}

// What the voices of one phrase go by in one sample: the channel's clock, how many samples the phrase has, whether voices
// interpolate, and the phrase's number.
#[derive(Clone, Copy)]
pub struct Moment {
    pub now: usize,
    pub data_len: usize,
    pub interpolates: bool,
    pub phrase: u8,
}

// What of a sample's settings depends on the recording: the loop length, that rounded down, and the recording's length.
#[derive(Clone, Copy)]
pub struct Span {
    pub length: f32,
    pub whole_length: f32,
    pub data_length: f32,
}

// What all voices of one phrase share in one sample, worked out once.
#[derive(Clone, Copy)]
pub struct Tick {
    pub now: usize,
    pub decay_samples: usize,
    pub span: Span,
    pub speed: f32,
    pub mode: Mode,
    pub once: bool,
    pub note_off_behavior: NoteOffBehaviour,
    pub interpolates: bool,
    pub phrase: u8,
}

// A turn taken the quick way, where the voice glides; elsewhere `voice` is not to be looked at.
// No Option: the voice is made in one place, before it is known whether it glides (speed: `quick_at`).
#[derive(Clone, Copy)]
pub struct Quick {
    pub voice: Voice,
    pub glides: bool,
}

impl Span {
    #[tactic(auto, unfolding(crate::specs::Voices::span_by))]
    fn new(m: Measure, data_len: usize) -> Self
        ensures { result ≡ span_by m data_len }
    {
        let data_length = binary32::usize_to_f32(data_len);
        let length = m.length(data_length);
        Self {
            length,
            whole_length: binary32::floor(length),
            data_length,
        }
    }
}

impl Tick {
    pub fn new(params: Params, at: Moment) -> Self
        ensures { result ≡ tick_of params at }
    {
        Self::measured(params, params.measure(), at)
    }

    // By a measure of the loop length, which is the parameters' for every phrase: worked out once, it serves them all.
    pub fn measured(params: Params, m: Measure, at: Moment) -> Self
        ensures { result ≡ tick_with (span_by m at.data_len) params at }
    {
        Self {
            now: at.now,
            decay_samples: params.decay_samples,
            span: Span::new(m, at.data_len),
            speed: params.speed(),
            mode: clip_mode(params.loop_mode),
            once: plays_once(params.loop_mode),
            note_off_behavior: params.note_off_behavior,
            interpolates: at.interpolates,
            phrase: at.phrase,
        }
    }
}

// Play-once moves as a loop does.
fn clip_mode(mode: LoopMode) -> Mode
    ensures { result ≡ clip_mode_of mode }
{
    match mode {
        LoopMode::PlayOnce | LoopMode::Loop => Mode::Loop,
        LoopMode::PingPong => Mode::PingPong,
    }
}

fn plays_once(mode: LoopMode) -> bool
    ensures { result ≡ plays_once_of mode }
{
    matches!(mode, LoopMode::PlayOnce)
}

// The value recorded at a place of the phrase.
pub fn recorded(data: &[u32], index: usize) -> f32
    ensures { result ≡ recorded_value_of «data».now index }
{
    if index < data.len() {
        binary32::from_bits(data[index])
    } else {
        0.0
    }
}

// a at fraction 0, and from there toward b (request 7/12).
#[tactic(auto, unfolding(crate::specs::Voices::between_of))]
fn between(a: f32, b: f32, fraction: f32) -> f32
    ensures { result ≡ between_of a b fraction }
{
    a + (b - a) * fraction
}

// What is recorded at a position, or between there and the next index where voices interpolate.
fn valued(position: Position, next: usize, t: Tick, data: &[u32]) -> f32
    ensures { result ≡ value_at t «data».now position next }
{
    let a = recorded(data, position.index);
    if !t.interpolates {
        return a;
    }
    between(a, recorded(data, next), position.fraction)
}

// The same of what is quickly found. What remains of the offset is worked out only where it is heard.
fn near_valued(near: Near, next: usize, t: Tick, data: &[u32]) -> f32
    ensures { QuickValue t «data».now near next result }
{
    let a = recorded(data, near.index);
    if !t.interpolates {
        return a;
    }
    between(a, recorded(data, next), near.fraction())
}

// The next index of a clip where voices interpolate and it is quickly worked out; elsewhere NONE. Where they don't, the
// index given.
fn quick_beside(clip2: Clip, index: usize, t: Tick) -> usize
    ensures { QuickBeside clip2 index t result }
{
    if !t.interpolates {
        return index;
    }
    clip2.quick_next(t.now, t.span.length, t.span.data_length, t.mode)
}

impl Voice {
    // A voice that starts at that moment, of its phrase.
    pub fn new(params: Params, position: f32, note: Note, velocity: f32, at: Moment) -> Self
        ensures { result ≡ fresh_of params position note velocity at }
    {
        let data_length = binary32::usize_to_f32(at.data_len);
        let clip2 = Clip::made(
            at.now,
            position * data_length,
            params.speed(),
            params.loop_length(at.data_len),
            data_length,
            clip_mode(params.loop_mode),
        );
        Self {
            finished_at: 0,
            last_sample_index: 0,
            clip2,
            volume: Volume::new(0.0).toward(at.now, params.attack_samples, velocity),
            loop_start_percent: position,
            played: 0.0,
            last_sample_value: 0.0,
            speed: 1.0,
            note,
            finished: false,
            is_at_zero_crossing: false,
            phrase: at.phrase,
        }
    }

    // What stands in a place that no voice has taken yet.
    pub fn blank() -> Self
        ensures { result ≡ blank_voice }
    {
        let clip2 = Clip {
            since: 0,
            start: 0.0,
            speed: 0.0,
            length: 1.0,
            data_length: 1.0,
            shift: 0.0,
            mode: Mode::Loop,
        };
        Self {
            finished_at: 0,
            last_sample_index: 0,
            clip2,
            volume: Volume::Static(0.0),
            loop_start_percent: 0.0,
            played: 0.0,
            last_sample_value: 0.0,
            speed: 0.0,
            note: Note {
                note: 0,
                channel: 0,
            },
            finished: true,
            is_at_zero_crossing: false,
            phrase: 0,
        }
    }

    #[tactic(auto, unfolding(crate::specs::Voices::at_speed_of))]
    pub fn at_speed(mut self, speed: f32) -> Self
        ensures { result ≡ at_speed_of speed self }
    {
        self.speed = speed;
        self
    }

    #[tactic(auto, unfolding(crate::specs::Voices::should_remove_of))]
    pub fn should_remove(self, t: Tick) -> bool
        ensures { result ≡ should_remove_of t self }
    {
        self.finished
            && over(
                t.note_off_behavior,
                self.volume.is_static_and_mute(),
                self.late(t),
            )
    }

    // Its decay is over by the clock, or it stands at a crossing.
    #[tactic(auto, unfolding(crate::specs::Voices::late_of))]
    fn late(self, t: Tick) -> bool
        ensures { result ≡ late_of t self }
    {
        t.decay_samples <= since(self.finished_at, t.now) || self.is_at_zero_crossing
    }

    // The clip, brought up to this sample's length, speed, data length and mode, and where it is then.
    #[tactic(auto, unfolding(crate::specs::Voices::moved_of))]
    fn moved(self, t: Tick) -> Sounding
        ensures { result ≡ sounding_of (moved_of t self) t.now t.interpolates }
    {
        self.clip2.sounding(
            t.now,
            t.span.length,
            self.speed * t.speed,
            t.span.data_length,
            t.mode,
            t.interpolates,
        )
    }

    fn sounded(self, t: Tick, data: &[u32]) -> Self
        ensures { result ≡ sounded_of t «data».now self }
    {
        let moved = self.moved(t);
        let position = moved.position;
        let value = valued(position, moved.next, t, data) * self.volume.level(t.now);
        Self {
            last_sample_index: position.index,
            clip2: moved.clip,
            played: self.played + self.speed * t.speed,
            last_sample_value: value,
            is_at_zero_crossing: binary32::crossing(value, self.last_sample_value),
            ..self
        }
    }

    // From here its level goes to 0 over the decay.
    #[tactic(auto, unfolding(crate::specs::Voices::finish_of))]
    pub fn finish(self, now: usize, decay_samples: usize) -> Self
        ensures { result ≡ finish_of now decay_samples self }
    {
        Self {
            finished_at: now,
            volume: self.volume.toward(now, decay_samples, 0.0),
            finished: true,
            ..self
        }
    }

    // Whether play-once has played a whole loop length.
    #[tactic(auto, unfolding(crate::specs::Voices::played_out_of))]
    fn played_out(self, t: Tick) -> bool
        ensures { result ≡ played_out_of t self }
    {
        t.once && !self.finished && t.span.whole_length <= binary32::abs(self.played)
    }

    // The end of its turn: play-once may finish it, and its level makes its step. It is `finish` and `volume_stepped`
    // in one, so that the voice is written once.
    fn settled(self, t: Tick) -> Self
        ensures { result ≡ volume_stepped t.now (ended_of t self) }
    {
        let out = self.played_out(t);
        Self {
            finished_at: time_of(out, t.now, self.finished_at),
            volume: faded(self.volume, out, t),
            finished: out | self.finished,
            ..self
        }
    }

    #[tactic(auto, unfolding(crate::specs::Voices::volume_stepped))]
    fn volume_stepped(self, now: usize) -> Self
        ensures { result ≡ volume_stepped now self }
    {
        Self {
            volume: self.volume.stepped(now),
            ..self
        }
    }

    // The voice's whole sample. One that is to be removed is skipped, but for its level.
    #[tactic(auto, unfolding(crate::specs::Voices::turn_of))]
    pub fn turn(self, t: Tick, data: &[u32]) -> Self
        ensures { result ≡ turn_of t «data».now self }
    {
        if self.should_remove(t) {
            return self.volume_stepped(t.now);
        }
        self.sounded(t, data).settled(t)
    }

    // Whether a turn that leaves it as `next` neither ends it nor finds it to be removed, before or after.
    #[tactic(auto, unfolding(crate::specs::Gliding::goes_on_of))]
    fn goes_on(self, t: Tick, next: Self) -> bool
        ensures { result ≡ goes_on_of t self next }
    {
        !next.played_out(t) && !self.should_remove(t) && !next.should_remove(t)
    }

    // Its whole sample, where it glides: `turn`, quickly.
    pub fn quick(self, t: Tick, data: &[u32]) -> Quick
        ensures { Quickly t «data».now self result }
    {
        let otherwise = Quick {
            voice: self,
            glides: false,
        };
        if self.phrase != t.phrase {
            return otherwise;
        }
        if !self.volume.keeps(t.now) {
            return otherwise;
        }
        let speed = self.speed * t.speed;
        let near = self
            .clip2
            .quick_index(t.now, t.span.length, speed, t.span.data_length, t.mode);
        if clip::NONE <= near.index {
            return otherwise;
        }
        let level = self.volume.level(t.now);
        let next = quick_beside(self.clip2, near.index, t);
        if clip::NONE <= next {
            return otherwise;
        }
        self.quick_at(t, near.index, near_valued(near, next, t, data) * level)
    }

    // A quick turn from its index and what is heard there on. The voice is made here and not by a call, which would copy
    // all of it.
    #[tactic(auto, unfolding(crate::specs::Gliding::quick_at))]
    pub fn quick_at(self, t: Tick, index: usize, value: f32) -> Quick
        ensures { result ≡ quick_at t self index value }
    {
        let sounded = Self {
            last_sample_index: index,
            played: self.played + self.speed * t.speed,
            last_sample_value: value,
            is_at_zero_crossing: binary32::crossing(value, self.last_sample_value),
            ..self
        };
        Quick {
            voice: sounded,
            glides: self.goes_on(t, sounded),
        }
    }

    // Whether the voice may stand in a record whose clock is at `now`.
    #[tactic(auto, unfolding(crate::specs::Voices::good_voice))]
    pub fn good(self, now: usize) -> bool
        ensures { result ≡ good_voice now self }
    {
        self.phrase < 8
            && self.clip2.since <= now
            && self.finished_at <= now
            && self.volume.good(now)
            && self.clip2.good()
    }
}

fn time_of(out: bool, now: usize, before: usize) -> usize
    ensures { result ≡ cond out now before }
{
    if out { now } else { before }
}

// The level after its step, once it goes to 0 if the voice is played out.
fn faded(volume: Volume, out: bool, t: Tick) -> Volume
    ensures { result ≡ faded_of volume out t }
{
    if out {
        volume.toward(t.now, t.decay_samples, 0.0).stepped(t.now)
    } else {
        volume.stepped(t.now)
    }
}

// Whether a finished voice goes, by what its note-off behaviour waits for.
#[tactic(auto, unfolding(crate::specs::Voices::over_of))]
fn over(behavior: NoteOffBehaviour, mute: bool, late: bool) -> bool
    ensures { result ≡ over_of behavior mute late }
{
    match behavior {
        NoteOffBehaviour::Decay => mute,
        NoteOffBehaviour::ZeroCrossing => late,
        NoteOffBehaviour::DecayAndZeroCrossing => mute | late,
    }
}
