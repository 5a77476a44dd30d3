// The header of a song of format 1, and whether a track chunk is a whole track.
ghost use Rattle.std.specs.Prelude.{Err, ◌≡◌, ◌^◌, ◌≤◌, ◌<◌, length};
ghost use Rattle.smf.specs.Faults.{fault_at};
ghost use Rattle.song_merge.specs.Headings.{fields_of, opening_of};
ghost use Rattle.song_merge.specs.Standing.{WholeTrack, ChunkEnd};

use smf::chunks::HEADER_TYPE;
use smf::events::{Step, step_at};
use smf::faults::{Fault, Reason};
use smf::fields::{four_at, two_at};

// Ticks a quarter note, how many tracks, and the place behind the header.
#[derive(Clone, Copy)]
pub struct Opened {
    pub division: u32,
    pub count: u32,
    pub next: usize,
}

fn broken(reason: Reason, at: usize) -> Result<Opened, Fault>
    ensures { result ≡ Err (fault_at reason at) }
{
    Err(Fault { reason, at })
}

// The header from its format on.
fn fields(file: &[u8], size: usize) -> Result<Opened, Fault>
    requires { size < 2 ^ 32 }
    ensures { result ≡ fields_of file.now size }
{
    let all = file.len();
    if all < 10 {
        return broken(Reason::Missing, all);
    }
    if two_at(file, 8) != 1 {
        return broken(Reason::OtherFormat, 9);
    }
    if all < 12 {
        return broken(Reason::Missing, all);
    }
    let count = two_at(file, 10);
    if count == 0 {
        return broken(Reason::OtherTrackCount, 11);
    }
    if all < 14 {
        return broken(Reason::Missing, all);
    }
    let division = two_at(file, 12);
    if 0x8000 <= division {
        return broken(Reason::SmpteDivision, 13);
    }
    if division == 0 {
        return broken(Reason::NoDivision, 13);
    }
    if all < 8 + size {
        return broken(Reason::Missing, all);
    }
    Ok(Opened {
        division,
        count,
        next: 8 + size,
    })
}

pub fn opening(file: &[u8]) -> Result<Opened, Fault>
    ensures { result ≡ opening_of file.now }
{
    let all = file.len();
    if all < 4 {
        return broken(Reason::Missing, all);
    }
    if four_at(file, 0) != HEADER_TYPE {
        return broken(Reason::NoHeader, 3);
    }
    if all < 8 {
        return broken(Reason::Missing, all);
    }
    let size = four_at(file, 4) as usize;
    if size < 6 {
        return broken(Reason::ShortHeader, 7);
    }
    fields(file, size)
}

// Whether a track stands from a place to another.
fn whole(file: &[u8], at: usize, end: usize) -> bool
    requires { (at ≤ end) × (end ≤ length file.now) }
    ensures { WholeTrack file.now at end result }
{
    let mut place = at;
    let mut running: u8 = 0;
    loop {
        match step_at(file, end, running, place) {
            Err(_) => return false,
            Ok(Step::End(next)) => return next == end,
            Ok(
                Step::Is {
                    delta: _,
                    event: _,
                    status,
                    next,
                },
            ) => {
                running = status;
                place = next;
            }
        }
    }
}

// The end of the track chunk at a place, or 0 where it is not a whole track.
pub fn chunk_end(file: &[u8], at: usize) -> usize
    requires { at ≤ length file.now }
    ensures { ChunkEnd file.now at result }
{
    let all = file.len();
    if all - at < 8 {
        return 0;
    }
    let full = at + 8 + four_at(file, at + 4) as usize;
    if all < full {
        return 0;
    }
    if whole(file, at + 8, full) { full } else { 0 }
}
