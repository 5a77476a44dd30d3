// A length of time by its unit, and what it comes to in samples.
ghost use Rattle.std.specs.Prelude.{◌≡◌};
ghost use Rattle.common_types.specs.Times.{
  from_unit_value_of,
  quarter_notes_per_bar_of,
  samples_per_quarter_note_of,
  samples_per_bar_of,
  as_samples_of,
};

use crate::Transport;

#[derive(Clone, Copy)]
pub enum TimeUnit {
    SixteenthNotes,
    QuarterNotes,
    Seconds,
    Samples,
    Bars,
}

// A length is a time, a part of the data, or bars of numerator / denominator * 4 quarter notes. A time of bars is
// shorter: it has the Rust's `loop_length`.
#[derive(Clone, Copy)]
pub enum TimeOrRatio {
    Time(TimeValue),
    Ratio(f32),
    WholeBars(f32),
}

#[derive(Clone, Copy)]
pub enum TimeValue {
    QuarterNotes(f32),
    Samples(f32),
    Seconds(f32),
    Bars(f32),
}

impl TimeValue {
    pub fn quarter_notes(quarter_notes: f32) -> Self
        ensures { result ≡ TimeValue.QuarterNotes quarter_notes }
    {
        TimeValue::QuarterNotes(quarter_notes)
    }

    pub fn samples(samples: f32) -> Self
        ensures { result ≡ TimeValue.Samples samples }
    {
        TimeValue::Samples(samples)
    }

    pub fn bars(bars: f32) -> Self
        ensures { result ≡ TimeValue.Bars bars }
    {
        TimeValue::Bars(bars)
    }

    pub fn from_unit_value(unit: TimeUnit, value: f32) -> Self
        ensures { result ≡ from_unit_value_of unit value }
    {
        match unit {
            TimeUnit::SixteenthNotes => TimeValue::QuarterNotes(value / 4.0),
            TimeUnit::QuarterNotes => TimeValue::QuarterNotes(value),
            TimeUnit::Seconds => TimeValue::Seconds(value),
            TimeUnit::Samples => TimeValue::Samples(value),
            TimeUnit::Bars => TimeValue::Bars(value),
        }
    }

    #[tactic(auto, unfolding(crate::specs::Times::as_samples_of))]
    pub fn as_samples(self, transport: Transport) -> f32
        ensures { result ≡ as_samples_of self transport }
    {
        match self {
            TimeValue::QuarterNotes(quarter_notes) => calc_samples_per_quarter_note(transport)
                * quarter_notes,
            TimeValue::Samples(samples) => samples,
            TimeValue::Seconds(seconds) => seconds * transport.sample_rate,
            TimeValue::Bars(bars) => calc_samples_per_bar(transport) * bars,
        }
    }
}

pub fn calc_quarter_notes_per_bar(transport: Transport) -> f32
    ensures { result ≡ quarter_notes_per_bar_of transport }
{
    let numerator = binary32::u32_to_f32(transport.time_sig_numerator);
    let denominator = binary32::u32_to_f32(transport.time_sig_denominator);
    numerator / denominator * 4.0
}

pub fn calc_samples_per_quarter_note(transport: Transport) -> f32
    ensures { result ≡ samples_per_quarter_note_of transport }
{
    transport.sample_rate * 60.0 / transport.tempo
}

#[tactic(auto, unfolding(crate::specs::Times::samples_per_bar_of))]
pub fn calc_samples_per_bar(transport: Transport) -> f32
    ensures { result ≡ samples_per_bar_of transport }
{
    calc_samples_per_quarter_note(transport) * calc_quarter_notes_per_bar(transport)
}
