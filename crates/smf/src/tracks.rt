// A song from its header to its end: judged and counted, and written to a list where there is room.
ghost use Rattle.std.specs.Prelude.{◌≡◌, [], ◌∷◌, ◌+◌, ◌*◌, ◌^◌, ◌≤◌, ◌<◌, min, length};
ghost use Rattle.std.proofs.lemmas.List.Edits.{sets};
ghost use Rattle.smf.specs.Files.{chunk_events, track_of, events_of};
ghost use Rattle.smf.specs.Times.{first_tempo};
ghost use Rattle.smf.specs.Cues.{
  event_entries,
  tempo_after,
  too_late,
  song_from,
  song_of,
  count_of,
  count_closed,
  numbers_of,
  WrittenList,
};

use crate::chunks::{behind, header, track_at};
use crate::clock::{Clock, LAST_FRAME, Tune, later};
use crate::events::{Event, Step, step_at};
use crate::faults::{Fault, Reason};
use crate::fields::four_at;

fn tempo_after(tempo: u32, event: Event) -> u32
    ensures { result ≡ tempo_after tempo event }
{
    match event {
        Event::Note(_) => tempo,
        Event::Tempo(new) => new,
        Event::Other => tempo,
    }
}

fn late(frame: u64, event: Event) -> bool
    ensures { result ≡ too_late frame event }
{
    match event {
        Event::Note(_) => LAST_FRAME < frame,
        Event::Tempo(_) => false,
        Event::Other => false,
    }
}

// What an event adds to a list of `count` entries, written where there is room.
fn put(list: &mut [u64], count: usize, frame: u64, event: Event) -> usize
    requires { count < 2 ^ 63 }
    ensures value { result ≡ count + length (event_entries frame event) }
    ensures list_after { 2 * result ≤ length list.old
        → list.new ≡ sets list.old (2 * count) (numbers_of (event_entries frame event)) }
{
    match event {
        Event::Note(key) => {
            if list.len() / 2 <= count {
                return count + 1;
            }
            let at = 2 * count;
            list[at] = frame;
            list[at + 1] = key;
            count + 1
        }
        Event::Tempo(_) => count,
        Event::Other => count,
    }
}

// How many starts and stops there are among the events of a track chunk that ends at `full`, from a place on.
fn events(
    file: &[u8],
    rate: u32,
    division: u32,
    full: usize,
    at: usize,
    list: &mut [u64],
) -> Result<usize, Fault>
    requires rate_bound { (rate ≤ 192000) × (0 < division) × (division < 2 ^ 15) }
    requires at_nonzero { (0 < at) × (at ≤ min full (length file.now)) }
    ensures value { result ≡ count_of (song_from rate division first_tempo 0 (chunk_events file.now full at)) }
    ensures written_list { WrittenList list.old list.new
        (song_from rate division first_tempo 0 (chunk_events file.now full at)).entries }
{
    let tune = Tune {
        rate: rate as u64,
        unit: (division as u64) * 1_000_000,
    };
    let end = full.min(file.len());
    let mut place = at;
    let mut running: u8 = 0;
    let mut tempo: u32 = 500_000;
    let mut clock = Clock { frames: 0, rest: 0 };
    let mut count: usize = 0;
    loop {
        match step_at(file, end, running, place)? {
            Step::End(next) => {
                behind(file, full, next)?;
                return Ok(count);
            }
            Step::Is {
                delta,
                event,
                status,
                next,
            } => {
                clock = later(tune, clock, delta, tempo);
                let frame = clock.frames;
                if late(frame, event) {
                    return Err(Fault {
                        reason: Reason::LateFrame,
                        at: next - 1,
                    });
                }
                count = put(list, count, frame, event);
                tempo = tempo_after(tempo, event);
                running = status;
                place = next;
            }
        }
    }
}

// The track chunk at a place.
fn track(file: &[u8], rate: u32, division: u32, at: usize, list: &mut [u64]) -> Result<usize, Fault>
    requires rate_bound { (rate ≤ 192000) × (0 < division) × (division < 2 ^ 15) }
    requires at_in_bounds { at ≤ length file.now }
    ensures value { result ≡ count_of (song_from rate division first_tempo 0 (track_of file.now at)) }
    ensures written_list { WrittenList list.old list.new
        (song_from rate division first_tempo 0 (track_of file.now at)).entries }
{
    let all = file.len();
    if all - at < 8 {
        return Err(Fault {
            reason: Reason::Missing,
            at: all,
        });
    }
    let full = at + 8 + four_at(file, at + 4) as usize;
    events(file, rate, division, full, at + 8, list)
}

fn tracks(
    file: &[u8],
    rate: u32,
    division: u32,
    at: usize,
    list: &mut [u64],
) -> Result<usize, Fault>
    requires { (rate ≤ 192000) × (0 < division) × (division < 2 ^ 15) }
    ensures value { result ≡ count_of (song_from rate division first_tempo 0 (events_of file.now at)) }
    ensures written_list { WrittenList list.old list.new
        (song_from rate division first_tempo 0 (events_of file.now at)).entries }
{
    match track_at(file, at)? {
        None => Err(Fault {
            reason: Reason::NoTrack,
            at: file.len(),
        }),
        Some(place) => track(file, rate, division, place, list),
    }
}

pub fn song(file: &[u8], rate: u32, list: &mut [u64]) -> Result<usize, Fault>
    requires { rate ≤ 192000 }
    ensures value { result ≡ count_of (song_of rate file.now) }
    ensures written_list { WrittenList list.old list.new (song_of rate file.now).entries }
{
    let (division, next) = header(file)?;
    tracks(file, rate, division, next, list)
}
