// The events of a track: a delta-time, and then what happens. `end` is where the track ends, or the file before it.
ghost use Rattle.std.specs.Prelude.{◌≡◌, ◌^◌, ◌≤◌, ◌<◌};
ghost use Rattle.smf.specs.Events.{
  is_one_byte,
  message_of,
  data_at,
  channel_event,
  tempo_of,
  meta_of,
  meta_at,
  sysex_at,
  status_of,
  event_at,
  step_at,
};

use crate::faults::{Fault, Reason};
use crate::fields::{quantity_at, three_at};
use octets::byte_at;

#[derive(Clone, Copy)]
pub enum Event {
    // A start or a stop: note * 256 + channel + velocity * 65536, where velocity 0 is a stop.
    Note(u64),
    // Microseconds a quarter note.
    Tempo(u32),
    Other,
}

// An event, the running status after it (0: none) and the place behind it; or the end of the track, and the place
// behind that.
#[derive(Clone, Copy)]
pub enum Read {
    Is {
        event: Event,
        status: u8,
        next: usize,
    },
    End(usize),
}

// The same with the event's delta-time.
#[derive(Clone, Copy)]
pub enum Step {
    Is {
        delta: u32,
        event: Event,
        status: u8,
        next: usize,
    },
    End(usize),
}

fn data_at(file: &[u8], end: usize, at: usize) -> Result<u8, Fault>
    ensures { result ≡ data_at file.now end at }
{
    if end <= at {
        return Err(Fault {
            reason: Reason::Missing,
            at,
        });
    }
    let byte = byte_at(file, at);
    if byte < 128 {
        Ok(byte)
    } else {
        Err(Fault {
            reason: Reason::NoDataByte,
            at,
        })
    }
}

fn one_byte(status: u8) -> bool
    ensures { result ≡ is_one_byte status }
{
    (192 <= status) & (status < 224)
}

fn message(status: u8, first: u8, second: u8) -> Event
    ensures { result ≡ message_of status first second }
{
    let key = (first as u64) * 256 + (status % 16) as u64;
    if status < 144 {
        Event::Note(key)
    } else if status < 160 {
        Event::Note(key + (second as u64) * 65536)
    } else {
        Event::Other
    }
}

// A channel's message of this status, from its first data byte on.
fn channel_at(file: &[u8], end: usize, status: u8, at: usize) -> Result<Read, Fault>
    ensures { result ≡ channel_event file.now end status at }
{
    let first = data_at(file, end, at)?;
    if one_byte(status) {
        return Ok(Read::Is {
            event: Event::Other,
            status,
            next: at + 1,
        });
    }
    let second = data_at(file, end, at + 1)?;
    Ok(Read::Is {
        event: message(status, first, second),
        status,
        next: at + 2,
    })
}

fn tempo_body(file: &[u8], end: usize, size: usize, at: usize) -> Result<Read, Fault>
    requires at_nonzero { 0 < at }
    requires at_le_end { at ≤ end }
    requires end_bound { end < 2 ^ 63 }
    ensures { result ≡ tempo_of file.now end size at }
{
    if size < 3 {
        return Err(Fault {
            reason: Reason::ShortTempo,
            at: at - 1,
        });
    }
    if end - at < size {
        return Err(Fault {
            reason: Reason::Missing,
            at: end,
        });
    }
    Ok(Read::Is {
        event: Event::Tempo(three_at(file, at)),
        status: 0,
        next: at + size,
    })
}

// A meta event from its data on.
fn meta_body(file: &[u8], end: usize, kind: u8, size: usize, at: usize) -> Result<Read, Fault>
    requires at_nonzero { 0 < at }
    requires at_le_end { at ≤ end }
    requires end_bound { end < 2 ^ 63 }
    ensures { result ≡ meta_of file.now end kind size at }
{
    if kind == 0x51 {
        return tempo_body(file, end, size, at);
    }
    if end - at < size {
        return Err(Fault {
            reason: Reason::Missing,
            at: end,
        });
    }
    if kind == 0x2f {
        return Ok(Read::End(at + size));
    }
    Ok(Read::Is {
        event: Event::Other,
        status: 0,
        next: at + size,
    })
}

// A meta event from its type on.
fn meta_at(file: &[u8], end: usize, at: usize) -> Result<Read, Fault>
    requires { end < 2 ^ 63 }
    ensures { result ≡ meta_at file.now end at }
{
    if end <= at {
        return Err(Fault {
            reason: Reason::Missing,
            at,
        });
    }
    let kind = byte_at(file, at);
    if 128 <= kind {
        return Err(Fault {
            reason: Reason::NoMetaType,
            at,
        });
    }
    let (value, next) = quantity_at(file, end, at + 1)?;
    meta_body(file, end, kind, value as usize, next)
}

// A system exclusive event from its length on.
fn sysex_at(file: &[u8], end: usize, at: usize) -> Result<Read, Fault>
    requires { end < 2 ^ 63 }
    ensures { result ≡ sysex_at file.now end at }
{
    let (value, next) = quantity_at(file, end, at)?;
    let size = value as usize;
    if end - next < size {
        return Err(Fault {
            reason: Reason::Missing,
            at: end,
        });
    }
    Ok(Read::Is {
        event: Event::Other,
        status: 0,
        next: next + size,
    })
}

// An event of which this status byte was read, from behind it on.
fn status_event(file: &[u8], end: usize, status: u8, at: usize) -> Result<Read, Fault>
    requires at_nonzero { 0 < at }
    requires end_bound { end < 2 ^ 63 }
    ensures { result ≡ status_of file.now end status at }
{
    if status < 240 {
        return channel_at(file, end, status, at);
    }
    if status == 255 {
        return meta_at(file, end, at);
    }
    if status == 240 {
        return sysex_at(file, end, at);
    }
    if status == 247 {
        return sysex_at(file, end, at);
    }
    Err(Fault {
        reason: Reason::SystemStatus,
        at: at - 1,
    })
}

pub fn event_at(file: &[u8], end: usize, running: u8, at: usize) -> Result<Read, Fault>
    requires { end < 2 ^ 63 }
    ensures { result ≡ event_at file.now end running at }
{
    if end <= at {
        return Err(Fault {
            reason: Reason::Missing,
            at,
        });
    }
    let byte = byte_at(file, at);
    if 128 <= byte {
        return status_event(file, end, byte, at + 1);
    }
    if running == 0 {
        return Err(Fault {
            reason: Reason::NoRunningStatus,
            at,
        });
    }
    channel_at(file, end, running, at)
}

pub fn step_at(file: &[u8], end: usize, running: u8, at: usize) -> Result<Step, Fault>
    requires { end < 2 ^ 63 }
    ensures { result ≡ step_at file.now end running at }
{
    if end <= at {
        return Err(Fault {
            reason: Reason::NoEndOfTrack,
            at,
        });
    }
    let (delta, behind) = quantity_at(file, end, at)?;
    match event_at(file, end, running, behind)? {
        Read::End(next) => Ok(Step::End(next)),
        Read::Is {
            event,
            status,
            next,
        } => Ok(Step::Is {
            delta,
            event,
            status,
            next,
        }),
    }
}
