// The chunks of a file: the header, and where the next track is.
ghost use Rattle.std.specs.Prelude.{◌≡◌, ◌+◌, ◌^◌, ◌≤◌, ◌<◌, min, length};
ghost use Rattle.smf.specs.Files.{fields_of, header_of, track_at, rest_at, behind_track};

use crate::faults::{Fault, Reason};
use crate::fields::{four_at, two_at};

// `MThd` and `MTrk`.
pub const HEADER_TYPE: u32 = 0x4d54_6864;

pub const TRACK_TYPE: u32 = 0x4d54_726b;

// The header from its format on: ticks a quarter note, and the place behind it.
fn fields(file: &[u8], size: usize) -> Result<(u32, usize), Fault>
    requires { size < 2 ^ 32 }
    ensures { result ≡ fields_of file.now size }
{
    let all = file.len();
    if all < 10 {
        return Err(Fault {
            reason: Reason::Missing,
            at: all,
        });
    }
    if two_at(file, 8) != 0 {
        return Err(Fault {
            reason: Reason::OtherFormat,
            at: 9,
        });
    }
    if all < 12 {
        return Err(Fault {
            reason: Reason::Missing,
            at: all,
        });
    }
    if two_at(file, 10) != 1 {
        return Err(Fault {
            reason: Reason::OtherTrackCount,
            at: 11,
        });
    }
    if all < 14 {
        return Err(Fault {
            reason: Reason::Missing,
            at: all,
        });
    }
    let division = two_at(file, 12);
    if 0x8000 <= division {
        return Err(Fault {
            reason: Reason::SmpteDivision,
            at: 13,
        });
    }
    if division == 0 {
        return Err(Fault {
            reason: Reason::NoDivision,
            at: 13,
        });
    }
    if all < 8 + size {
        return Err(Fault {
            reason: Reason::Missing,
            at: all,
        });
    }
    Ok((division, 8 + size))
}

pub fn header(file: &[u8]) -> Result<(u32, usize), Fault>
    ensures { result ≡ header_of file.now }
{
    let all = file.len();
    if all < 4 {
        return Err(Fault {
            reason: Reason::Missing,
            at: all,
        });
    }
    if four_at(file, 0) != HEADER_TYPE {
        return Err(Fault {
            reason: Reason::NoHeader,
            at: 3,
        });
    }
    if all < 8 {
        return Err(Fault {
            reason: Reason::Missing,
            at: all,
        });
    }
    let size = four_at(file, 4) as usize;
    if size < 6 {
        return Err(Fault {
            reason: Reason::ShortHeader,
            at: 7,
        });
    }
    fields(file, size)
}

// The place of the next track chunk from a place on, if there is one. Other chunks are skipped.
pub fn track_at(file: &[u8], at: usize) -> Result<Option<usize>, Fault>
    ensures { result ≡ track_at file.now at }
{
    let all = file.len();
    let mut place = at;
    // No index is counted: each chunk says how far the next one is.
    while place < all {
        if all - place < 4 {
            return Err(Fault {
                reason: Reason::Missing,
                at: all,
            });
        }
        let kind = four_at(file, place);
        if kind == HEADER_TYPE {
            return Err(Fault {
                reason: Reason::SecondHeader,
                at: place + 3,
            });
        }
        if kind == TRACK_TYPE {
            return Ok(Some(place));
        }
        if all - place < 8 {
            return Err(Fault {
                reason: Reason::Missing,
                at: all,
            });
        }
        let size = four_at(file, place + 4) as usize;
        if all - place - 8 < size {
            return Err(Fault {
                reason: Reason::Missing,
                at: all,
            });
        }
        place = place + 8 + size;
    }
    Ok(None)
}

fn rest(file: &[u8], at: usize) -> Result<(), Fault>
    ensures { result ≡ rest_at file.now at }
{
    match track_at(file, at)? {
        Some(place) => Err(Fault {
            reason: Reason::SecondTrack,
            at: place + 3,
        }),
        None => Ok(()),
    }
}

// What the file has behind End of Track, where the track chunk ends at `full`.
pub fn behind(file: &[u8], full: usize, at: usize) -> Result<(), Fault>
    ensures { result ≡ behind_track file.now full at }
{
    let all = file.len();
    if all < full {
        if at < all {
            return Err(Fault {
                reason: Reason::BehindEndOfTrack,
                at,
            });
        }
        return Err(Fault {
            reason: Reason::Missing,
            at: all,
        });
    }
    if at < full {
        return Err(Fault {
            reason: Reason::BehindEndOfTrack,
            at,
        });
    }
    rest(file, full)
}
