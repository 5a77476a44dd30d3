// The settings of the engine: notes, modes, transport and parameters. `time_value` is a module of this crate, since
// each of the two uses the other. Each public function equals a definition in specs/, for every value of its arguments.
#![tactic(auto)]

ghost use Rattle.std.specs.Prelude.{◌≡◌};
ghost use Rattle.binary32.specs.Leaves.{max_of, one32};
ghost use Rattle.common_types.specs.Notes.{note_of, default_note, into_u64_of, from_u64_of};
ghost use Rattle.common_types.specs.Modes.{
  index_to_f32_of,
  index_from_f32_of,
  loop_mode_to_index_of,
  loop_mode_from_index_of,
  loop_mode_to_f32_of,
  loop_mode_from_f32_of,
  note_off_to_index_of,
  note_off_from_index_of,
  note_off_to_f32_of,
  note_off_from_f32_of,
};
ghost use Rattle.common_types.specs.Settings.{
  default_transport,
  default_params,
  default_init_params,
  speed_of,
  time_in,
  is_whole,
  is_ratio,
  worked_of,
  length_of,
  loop_length_of,
  measure_of,
  measured_of,
  length_beyond,
  beyond_limits,
};

pub mod time_value;

use refusals::Refusal;
use time_value::{TimeOrRatio, TimeValue, calc_samples_per_quarter_note};

#[derive(Clone, Copy, PartialEq, Eq)]
pub struct Note {
    pub note: u8,
    pub channel: u8,
}

impl Note {
    pub fn new(note: u8, channel: u8) -> Self
        ensures { result ≡ note_of note channel }
    {
        Self { note, channel }
    }
}

impl Default for Note {
    ghost is_default = { λ note. note ≡ default_note };

    fn default() -> Self {
        Note::new(0, 0)
    }
}

impl From<Note> for u64 {
    ghost from_gives = { λ note value. value ≡ into_u64_of note };

    fn from(note: Note) -> u64 {
        (note.note as u64) * 256 + note.channel as u64
    }
}

impl From<u64> for Note {
    ghost from_gives = { λ value note. note ≡ from_u64_of value };

    fn from(value: u64) -> Self {
        Note::new((value / 256 % 256) as u8, (value % 256) as u8)
    }
}

#[derive(Clone, Copy)]
pub enum LoopMode {
    PlayOnce,
    Loop,
    PingPong,
}

impl LoopMode {
    pub const LENGTH: usize = 3;

    pub fn to_index(self) -> usize
        ensures { result ≡ loop_mode_to_index_of self }
    {
        match self {
            LoopMode::PlayOnce => 0,
            LoopMode::Loop => 1,
            LoopMode::PingPong => 2,
        }
    }

    // `from_index` and `from_f32` have the Rust's names, and are no `TryFrom`: two ways from a number would need one each.
    #[tactic(auto, using(crate::proofs::Indices::by_index_other))]
    pub fn from_index(index: usize) -> Result<LoopMode, Refusal>
        ensures { result ≡ loop_mode_from_index_of index }
    {
        match index {
            0 => Ok(LoopMode::PlayOnce),
            1 => Ok(LoopMode::Loop),
            2 => Ok(LoopMode::PingPong),
            _ => Err(Refusal::BadArgument),
        }
    }

    pub fn to_f32(self) -> f32
        ensures { result ≡ loop_mode_to_f32_of self }
    {
        index_to_f32(self.to_index(), LoopMode::LENGTH)
    }

    pub fn from_f32(x: f32) -> Result<LoopMode, Refusal>
        ensures { result ≡ loop_mode_from_f32_of x }
    {
        LoopMode::from_index(index_from_f32(x, LoopMode::LENGTH))
    }
}

#[derive(Clone, Copy)]
pub enum NoteOffBehaviour {
    Decay,
    ZeroCrossing,
    DecayAndZeroCrossing,
}

impl NoteOffBehaviour {
    pub const LENGTH: usize = 3;

    pub fn to_index(self) -> usize
        ensures { result ≡ note_off_to_index_of self }
    {
        match self {
            NoteOffBehaviour::Decay => 0,
            NoteOffBehaviour::ZeroCrossing => 1,
            NoteOffBehaviour::DecayAndZeroCrossing => 2,
        }
    }

    #[tactic(auto, using(crate::proofs::Indices::by_index_other))]
    pub fn from_index(index: usize) -> Result<NoteOffBehaviour, Refusal>
        ensures { result ≡ note_off_from_index_of index }
    {
        match index {
            0 => Ok(NoteOffBehaviour::Decay),
            1 => Ok(NoteOffBehaviour::ZeroCrossing),
            2 => Ok(NoteOffBehaviour::DecayAndZeroCrossing),
            _ => Err(Refusal::BadArgument),
        }
    }

    pub fn to_f32(self) -> f32
        ensures { result ≡ note_off_to_f32_of self }
    {
        index_to_f32(self.to_index(), NoteOffBehaviour::LENGTH)
    }

    pub fn from_f32(x: f32) -> Result<NoteOffBehaviour, Refusal>
        ensures { result ≡ note_off_from_f32_of x }
    {
        NoteOffBehaviour::from_index(index_from_f32(x, NoteOffBehaviour::LENGTH))
    }
}

// The middle of an index's part of 0 to 1.
fn index_to_f32(index: usize, length: usize) -> f32
    ensures { result ≡ index_to_f32_of index length }
{
    let i = binary32::usize_to_f32(index);
    let l = binary32::usize_to_f32(length);
    (i / l + (i + 1.0) / l) * 0.5
}

// The index whose part of 0 to 1 holds x.
#[tactic(auto, unfolding(crate::specs::Modes::index_from_f32_of))]
fn index_from_f32(x: f32, length: usize) -> usize
    ensures { result ≡ index_from_f32_of x length }
{
    binary32::f32_to_usize(binary32::floor(x * binary32::usize_to_f32(length)))
}

pub const DEFAULT_AUTO_PASSTHRU: bool = true;

#[derive(Clone, Copy)]
pub struct Transport {
    pub sample_rate: f32,
    pub tempo: f32,
    pub time_sig_numerator: u32,
    pub time_sig_denominator: u32,
}

impl Default for Transport {
    ghost is_default = { λ transport. transport ≡ default_transport };

    fn default() -> Self {
        Self {
            sample_rate: 44100.0,
            tempo: 120.0,
            time_sig_numerator: 4,
            time_sig_denominator: 4,
        }
    }
}

// The fields stand in another order than in the Rust, so that the record has little padding.
#[derive(Clone, Copy)]
pub struct Params {
    pub attack_samples: usize,
    pub decay_samples: usize,
    pub transport: Transport,
    pub loop_length: TimeOrRatio,
    pub speed: f32,
    pub reverse_speed: f32,
    pub volume: f32,
    pub auto_passthru: bool,
    pub loop_mode: LoopMode,
    pub note_off_behavior: NoteOffBehaviour,
}

// The longest attack or decay.
const LONGEST_RAMP: usize = 16777216;

impl Default for Params {
    ghost is_default = { λ params. params ≡ default_params };

    fn default() -> Self {
        Self {
            attack_samples: 100,
            decay_samples: 100,
            transport: Transport::default(),
            loop_length: TimeOrRatio::Ratio(1.0),
            speed: 1.0,
            reverse_speed: 1.0,
            volume: 1.0,
            auto_passthru: DEFAULT_AUTO_PASSTHRU,
            loop_mode: LoopMode::Loop,
            note_off_behavior: NoteOffBehaviour::DecayAndZeroCrossing,
        }
    }
}

impl Params {
    // A copy made field by field. One of the whole, put into an enum, is made twice.
    pub fn copied(self) -> Self
        ensures { result ≡ self }
    {
        Self {
            attack_samples: self.attack_samples,
            decay_samples: self.decay_samples,
            transport: self.transport,
            loop_length: self.loop_length,
            speed: self.speed,
            reverse_speed: self.reverse_speed,
            volume: self.volume,
            auto_passthru: self.auto_passthru,
            loop_mode: self.loop_mode,
            note_off_behavior: self.note_off_behavior,
        }
    }

    #[tactic(auto, unfolding(crate::specs::Settings::speed_of))]
    pub fn speed(self) -> f32
        ensures { result ≡ speed_of self }
    {
        self.speed * self.reverse_speed
    }

    #[tactic(auto, unfolding(crate::specs::Settings::loop_length_of))]
    pub fn loop_length(self, data_len: usize) -> f32
        ensures { result ≡ loop_length_of self data_len }
    {
        at_least_one(length(self.loop_length, self.transport, data_len))
    }

    // What of the loop length asks for no recording (11/12). `loop_length` doesn't go by it, which would cost the calls
    // stack.
    #[tactic(auto, unfolding(crate::specs::Settings::measure_of))]
    pub fn measure(self) -> Measure
        ensures { result ≡ measure_of self }
    {
        Measure {
            value: time_length(
                timed(self.loop_length),
                whole(self.loop_length),
                self.transport,
            ),
            by_ratio: is_ratio(self.loop_length),
        }
    }

    // Whether row 4 of document 01's table refuses these parameters.
    #[tactic(auto, unfolding(crate::specs::Settings::beyond_limits))]
    pub fn beyond_limits(self) -> bool
        ensures { result ≡ beyond_limits self }
    {
        self.attack_samples > LONGEST_RAMP
            || self.decay_samples > LONGEST_RAMP
            || length_beyond(self.loop_length, self.transport)
    }
}

// A loop length before it is known of which recording: a part of the recording's length, or a length of its own.
#[derive(Clone, Copy)]
pub struct Measure {
    pub value: f32,
    pub by_ratio: bool,
}

impl Measure {
    // The loop length over a recording of that length, as a float.
    #[tactic(auto, unfolding(crate::specs::Settings::measured_of))]
    pub fn length(self, data_length: f32) -> f32
        ensures { result ≡ measured_of self data_length }
    {
        if self.by_ratio {
            return at_least_one(data_length * self.value);
        }
        at_least_one(self.value)
    }
}

// f32::max of x and 1: NaN gives 1. Beside a number that is known, it is one comparison.
fn at_least_one(x: f32) -> f32
    ensures { result ≡ max_of x one32 }
{
    if x >= 1.0 { x } else { 1.0 }
}

// NaN is not above a limit.
#[tactic(auto, unfolding(crate::specs::Settings::length_beyond), using(crate::proofs::Worked::worked_beyond))]
fn length_beyond(length: TimeOrRatio, transport: Transport) -> bool
    ensures { result ≡ length_beyond length transport }
{
    match length {
        TimeOrRatio::Ratio(ratio) => ratio > 1.0,
        _ => time_length(timed(length), whole(length), transport) > 4194304.0,
    }
}

// A loop length before it is held to 1 or more.
#[tactic(auto, unfolding(crate::specs::Settings::length_of), using(crate::proofs::Worked::worked_length))]
fn length(length: TimeOrRatio, transport: Transport, data_len: usize) -> f32
    ensures { result ≡ length_of length transport data_len }
{
    match length {
        TimeOrRatio::Ratio(ratio) => binary32::usize_to_f32(data_len) * ratio,
        _ => time_length(timed(length), whole(length), transport),
    }
}

// The time and the yes or no that `time_length` takes. With one call of it for times and whole bars alike, what the
// compiler puts into the per-frame call stays as small as it was without whole bars.
fn timed(length: TimeOrRatio) -> TimeValue
    ensures { result ≡ time_in length }
{
    match length {
        TimeOrRatio::Time(value) => value,
        TimeOrRatio::Ratio(ratio) => TimeValue::Samples(ratio),
        TimeOrRatio::WholeBars(bars) => TimeValue::Bars(bars),
    }
}

fn whole(length: TimeOrRatio) -> bool
    ensures { result ≡ is_whole length }
{
    matches!(length, TimeOrRatio::WholeBars(_))
}

fn is_ratio(length: TimeOrRatio) -> bool
    ensures { result ≡ is_ratio length }
{
    matches!(length, TimeOrRatio::Ratio(_))
}

// A bar is numerator / denominator quarter notes, and a whole one four times that, as `TimeValue::as_samples` has it.
fn time_length(value: TimeValue, whole: bool, transport: Transport) -> f32
    ensures { result ≡ worked_of value whole transport }
{
    match value {
        TimeValue::Samples(samples) => samples,
        TimeValue::Seconds(seconds) => seconds * transport.sample_rate,
        TimeValue::QuarterNotes(quarter_notes) => quarter_notes
            * calc_samples_per_quarter_note(transport),
        TimeValue::Bars(bars) => {
            let numerator = binary32::u32_to_f32(transport.time_sig_numerator);
            let denominator = binary32::u32_to_f32(transport.time_sig_denominator);
            if whole {
                calc_samples_per_quarter_note(transport) * (numerator / denominator * 4.0) * bars
            } else {
                bars * (calc_samples_per_quarter_note(transport) * numerator / denominator)
            }
        }
    }
}

#[derive(Clone, Copy)]
pub struct InitParams {
    pub auto_passthru: bool,
}

impl Default for InitParams {
    ghost is_default = { λ params. params ≡ default_init_params };

    fn default() -> Self {
        Self {
            auto_passthru: DEFAULT_AUTO_PASSTHRU,
        }
    }
}
