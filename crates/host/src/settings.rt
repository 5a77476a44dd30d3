// Parameters from plain numbers, those of the event listing, and set-up.
ghost use Rattle.std.specs.Prelude.{◌≡◌, length};
ghost use Rattle.host.specs.Crossing.{known, params_by, made_by, set_up_by};

use common_types::{InitParams, Params, Transport};
use listing::records::{loop_length, loop_mode, note_off};
use sampler::Sampler;

// The parameters as a host gives them, in an order without holes.
#[derive(Clone, Copy)]
pub struct Settings {
    pub attack_samples: usize,
    pub decay_samples: usize,
    pub sample_rate: f32,
    pub tempo: f32,
    pub time_sig_numerator: u32,
    pub time_sig_denominator: u32,
    pub length: f32,
    pub speed: f32,
    pub reverse_speed: f32,
    pub volume: f32,
    pub length_kind: u8,
    pub loop_mode: u8,
    pub note_off: u8,
    pub auto_passthru: u8,
}

// The parameters that settings make, or those that hold by themselves and 7.
#[derive(Clone, Copy)]
pub struct Made {
    pub params: Params,
    pub number: u8,
}

fn is_known(s: Settings) -> bool
    ensures { result ≡ known s }
{
    (s.length_kind <= 5) & (s.loop_mode <= 2) & (s.note_off <= 2) & (s.auto_passthru <= 1)
}

fn params_by(s: Settings) -> Params
    ensures { result ≡ params_by s }
{
    Params {
        attack_samples: s.attack_samples,
        decay_samples: s.decay_samples,
        transport: Transport {
            sample_rate: s.sample_rate,
            tempo: s.tempo,
            time_sig_numerator: s.time_sig_numerator,
            time_sig_denominator: s.time_sig_denominator,
        },
        loop_length: loop_length(s.length_kind, s.length),
        speed: s.speed,
        reverse_speed: s.reverse_speed,
        volume: s.volume,
        auto_passthru: s.auto_passthru == 1,
        loop_mode: loop_mode(s.loop_mode),
        note_off_behavior: note_off(s.note_off),
    }
}

pub fn params_made(settings: Settings) -> Made
    ensures { result ≡ made_by settings }
{
    if is_known(settings) {
        Made {
            params: params_by(settings),
            number: 0,
        }
    } else {
        Made {
            params: Params::default(),
            number: 7,
        }
    }
}

// A new record, and the number of its set-up. A struct of the C interface (host/vusatica.c).
#[derive(Clone, Copy)]
pub struct NewSampler {
    pub sampler: Sampler,
    pub number: u8,
}

pub fn set_up(channel_count: usize, auto_passthru: bool, memory: &[u32]) -> NewSampler
    ensures { result ≡ set_up_by channel_count auto_passthru (length memory.now) }
{
    let answer = Sampler::new(channel_count, InitParams { auto_passthru }, memory);
    NewSampler {
        sampler: answer.sampler,
        number: refusals::code(answer.done),
    }
}
