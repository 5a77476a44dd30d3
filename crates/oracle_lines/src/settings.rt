// The parameters in a record: bytes length kind at 4, loop mode at 5, note-off mode at 6 and auto pass-through at 7
// (modes in the order of their declaration, length kinds as in the listing's version 2, and each byte above the last is
// taken for the last); floats volume at 16, value at 20, rate at 24, tempo at 28; whole numbers numerator at 32,
// denominator at 36, attack at 40, decay at 48; floats speed at 56 and reverse speed at 60.
use crate::field::{Record, f32_at, u32_at, usize_at};
use common_types::time_value::{TimeOrRatio, TimeValue};
use common_types::{LoopMode, NoteOffBehaviour, Params, Transport};

pub fn params_of(fields: &Record) -> Params {
    Params {
        attack_samples: usize_at(fields, 40),
        decay_samples: usize_at(fields, 48),
        transport: transport(fields),
        loop_length: loop_length(fields[4], f32_at(fields, 20)),
        speed: f32_at(fields, 56),
        reverse_speed: f32_at(fields, 60),
        volume: f32_at(fields, 16),
        auto_passthru: fields[7] != 0,
        loop_mode: loop_mode(fields[5]),
        note_off_behavior: note_off(fields[6]),
    }
}

pub fn transport(fields: &Record) -> Transport {
    Transport {
        sample_rate: f32_at(fields, 24),
        tempo: f32_at(fields, 28),
        time_sig_numerator: u32_at(fields, 32),
        time_sig_denominator: u32_at(fields, 36),
    }
}

// By number, as the Rust's side writes it into a record; so are the two modes.
fn loop_length(kind: u8, value: f32) -> TimeOrRatio {
    match kind {
        0 => TimeOrRatio::Time(TimeValue::quarter_notes(value)),
        1 => TimeOrRatio::Time(TimeValue::samples(value)),
        2 => TimeOrRatio::Time(TimeValue::Seconds(value)),
        3 => TimeOrRatio::Time(TimeValue::bars(value)),
        4 => TimeOrRatio::Ratio(value),
        _ => TimeOrRatio::WholeBars(value),
    }
}

pub fn loop_mode(index: u8) -> LoopMode {
    match index {
        0 => LoopMode::PlayOnce,
        1 => LoopMode::Loop,
        _ => LoopMode::PingPong,
    }
}

pub fn note_off(index: u8) -> NoteOffBehaviour {
    match index {
        0 => NoteOffBehaviour::Decay,
        1 => NoteOffBehaviour::ZeroCrossing,
        _ => NoteOffBehaviour::DecayAndZeroCrossing,
    }
}
