// Which header and which record of a listing is good, and what call a good record is.
ghost use Rattle.std.specs.Prelude.{◌≡◌, ◌+◌, ◌*◌, ◌≤◌};
ghost use Rattle.listing.specs.Records.{
  channel_count,
  good_header,
  header_of,
  kind_length,
  to_read,
  last_length_kind,
  good_settings,
  good_record,
  note_at,
  loop_mode_of,
  note_off_of,
  length_by_kind,
  transport_of,
  params_of,
  frame_call_of,
  call_of,
  record_of,
};

use crate::fields::{float_at, half_at, word_at};
use common_types::time_value::{TimeOrRatio, TimeValue};
use common_types::{LoopMode, Note, NoteOffBehaviour, Params, Transport};
use octets::byte_at;

// A listing is of the first version or the second, and has one channel or two.
#[derive(Clone, Copy)]
pub struct Header {
    pub second: bool,
    pub stereo: bool,
    pub auto_passthru: bool,
}

// What a record asks for. A frame is one float a channel.
#[derive(Clone, Copy)]
pub enum Call {
    Parameters(Params),
    Start {
        note: Note,
        position: f32,
        velocity: f32,
    },
    Stop {
        note: Note,
    },
    Speed {
        note: Note,
        speed: f32,
    },
    StartRecording,
    StopRecording,
    Mono {
        input: f32,
    },
    Stereo {
        first: f32,
        second: f32,
    },
    Reset,
}

fn good_header(bytes: &[u8]) -> bool
    ensures { result ≡ good_header bytes.now }
{
    let version = byte_at(bytes, 0);
    let count = byte_at(bytes, 1);
    (bytes.len() == 3)
        & ((version == 1) | (version == 2))
        & ((count == 1) | (count == 2))
        & (byte_at(bytes, 2) <= 1)
}

// None for a bad header.
pub fn read_header(bytes: &[u8]) -> Option<Header>
    ensures { result ≡ header_of bytes.now }
{
    if good_header(bytes) {
        Some(Header {
            second: byte_at(bytes, 0) == 2,
            stereo: byte_at(bytes, 1) == 2,
            auto_passthru: byte_at(bytes, 2) == 1,
        })
    } else {
        None
    }
}

// How many bytes to read after the two of a record's length. One above 45, which no kind has, is answered 0: such a
// record is bad as it stands.
pub fn rest(bytes: &[u8]) -> usize
    ensures value { result ≡ to_read bytes.now }
    ensures upper_bound { result ≤ 45 }
{
    let size = half_at(bytes, 0) as usize;
    if bytes.len() != 2 {
        return 0;
    }
    if size <= 45 { size } else { 0 }
}

fn frame_length(h: Header) -> usize
    ensures { result ≡ 1 + 4 * channel_count h }
{
    if h.stereo { 9 } else { 5 }
}

pub fn length_of(h: Header, kind: u8) -> usize
    ensures { result ≡ kind_length h kind }
{
    let lengths = [45, 11, 3, 7, 1, 1, frame_length(h), 1];
    let at = kind as usize;
    if at < 8 { lengths[at] } else { 0 }
}

// Whole bars, length kind 5, came with the second version.
pub fn last_length_kind(h: Header) -> u8
    ensures { result ≡ last_length_kind h }
{
    if h.second { 5 } else { 4 }
}

fn good_settings(h: Header, r: &[u8]) -> bool
    ensures { result ≡ good_settings h r.now }
{
    (byte_at(r, 11) <= 1)
        & (byte_at(r, 12) <= 2)
        & (byte_at(r, 13) <= last_length_kind(h))
        & (byte_at(r, 26) <= 2)
}

fn good_record(h: Header, r: &[u8]) -> bool
    ensures { result ≡ good_record h r.now }
{
    let kind = byte_at(r, 2);
    let size = half_at(r, 0) as usize;
    (r.len() == size + 2) & (size == length_of(h, kind)) & ((kind != 0) | good_settings(h, r))
}

#[tactic(auto, unfolding(crate::specs::Records::loop_mode_of))]
pub fn loop_mode(index: u8) -> LoopMode
    ensures { result ≡ loop_mode_of index }
{
    LoopMode::from_index(index as usize).unwrap_or(LoopMode::PingPong)
}

#[tactic(auto, unfolding(crate::specs::Records::note_off_of))]
pub fn note_off(index: u8) -> NoteOffBehaviour
    ensures { result ≡ note_off_of index }
{
    NoteOffBehaviour::from_index(index as usize).unwrap_or(NoteOffBehaviour::DecayAndZeroCrossing)
}

pub fn loop_length(kind: u8, value: f32) -> TimeOrRatio
    ensures { result ≡ length_by_kind kind value }
{
    match kind {
        0 => TimeOrRatio::Time(TimeValue::QuarterNotes(value)),
        1 => TimeOrRatio::Time(TimeValue::Samples(value)),
        2 => TimeOrRatio::Time(TimeValue::Seconds(value)),
        3 => TimeOrRatio::Time(TimeValue::Bars(value)),
        4 => TimeOrRatio::Ratio(value),
        _ => TimeOrRatio::WholeBars(value),
    }
}

fn transport(r: &[u8]) -> Transport
    ensures { result ≡ transport_of r.now }
{
    Transport {
        sample_rate: float_at(r, 31),
        tempo: float_at(r, 35),
        time_sig_numerator: word_at(r, 39),
        time_sig_denominator: word_at(r, 43),
    }
}

fn params(r: &[u8]) -> Params
    ensures { result ≡ params_of r.now }
{
    Params {
        attack_samples: word_at(r, 3) as usize,
        decay_samples: word_at(r, 7) as usize,
        transport: transport(r),
        loop_length: loop_length(byte_at(r, 13), float_at(r, 14)),
        speed: float_at(r, 18),
        reverse_speed: float_at(r, 22),
        volume: float_at(r, 27),
        auto_passthru: byte_at(r, 11) == 1,
        loop_mode: loop_mode(byte_at(r, 12)),
        note_off_behavior: note_off(byte_at(r, 26)),
    }
}

fn note(r: &[u8]) -> Note
    ensures { result ≡ note_at r.now }
{
    Note::new(byte_at(r, 3), byte_at(r, 4))
}

fn frame_call(h: Header, r: &[u8]) -> Call
    ensures { result ≡ frame_call_of h r.now }
{
    if h.stereo {
        Call::Stereo {
            first: float_at(r, 3),
            second: float_at(r, 7),
        }
    } else {
        Call::Mono {
            input: float_at(r, 3),
        }
    }
}

fn call_of(h: Header, r: &[u8]) -> Call
    ensures { result ≡ call_of h r.now }
{
    let kind = byte_at(r, 2);
    match kind {
        0 => Call::Parameters(params(r)),
        1 => Call::Start {
            note: note(r),
            position: float_at(r, 5),
            velocity: float_at(r, 9),
        },
        2 => Call::Stop { note: note(r) },
        3 => Call::Speed {
            note: note(r),
            speed: float_at(r, 5),
        },
        4 => Call::StartRecording,
        5 => Call::StopRecording,
        6 => frame_call(h, r),
        _ => Call::Reset,
    }
}

// None for a bad record.
pub fn read_record(h: Header, r: &[u8]) -> Option<Call>
    ensures { result ≡ record_of h r.now }
{
    if good_record(h, r) {
        Some(call_of(h, r))
    } else {
        None
    }
}
