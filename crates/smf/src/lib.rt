// Songs from Standard MIDI Files 1.0 of format 0: a list of starts and stops, each with its frame count. It takes every
// list of bytes, and each public function equals a definition in specs/, for every value of its arguments.
#![tactic(auto)]

pub mod chunks;
mod clock;
pub mod events;
pub mod faults;
pub mod fields;
mod tracks;

ghost use Rattle.std.specs.Prelude.{◌≡◌, length};
ghost use Rattle.smf.specs.declared.SongRefusal.TheVariants.{Faulty};
ghost use Rattle.smf.specs.Cues.{counted_judged, list_of, song_number, cue_of};

use faults::Fault;
use tracks::song;

// Why a song isn't read.
#[derive(Clone, Copy, PartialEq, Eq, Debug)]
pub enum SongRefusal {
    // The rate isn't in 1 to 192,000.
    BadRate,
    Faulty(Fault),
    // The list has no room for so many starts and stops.
    Short(usize),
}

// A start or a stop, as the engine takes it; `note` is the note times 256 plus the channel.
#[derive(Clone, Copy)]
pub struct Cue {
    pub frame: u64,
    pub velocity: f32,
    pub note: u64,
    pub starts: bool,
}

// Reads a song for a rate of so many frames a second, and answers how many starts and stops are in the list, two numbers
// each. A refused one leaves the list as it was.
pub fn read_song(file: &[u8], rate: u32, list: &mut [u64]) -> Result<usize, SongRefusal>
    ensures value { result ≡ counted_judged file.now rate (length list.old) }
    ensures list_after { list.new ≡ list_of file.now rate list.old }
{
    if rate < 1 {
        return Err(SongRefusal::BadRate);
    }
    if 192000 < rate {
        return Err(SongRefusal::BadRate);
    }
    let mut none = [0u64; 1];
    let count = song(file, rate, &mut none)?;
    if list.len() / 2 < count {
        return Err(SongRefusal::Short(count));
    }
    song(file, rate, list)?;
    Ok(count)
}

impl From<Fault> for SongRefusal {
    ghost from_gives = { λ fault refusal. refusal ≡ Faulty fault };

    fn from(fault: Fault) -> SongRefusal {
        SongRefusal::Faulty(fault)
    }
}

impl SongRefusal {
    pub fn number(self) -> u8
        ensures { result ≡ song_number self }
    {
        match self {
            SongRefusal::BadRate => 22,
            SongRefusal::Faulty(fault) => faults::refusal(fault.reason),
            SongRefusal::Short(_) => 8,
        }
    }
}

impl Cue {
    // The two numbers of an entry of the list.
    pub fn new(frame: u64, key: u64) -> Cue
        ensures { result ≡ cue_of frame key }
    {
        let velocity = key / 65536 % 256;
        Cue {
            frame,
            velocity: binary32::u64_to_f32(velocity) / 127.0,
            note: key % 65536,
            starts: velocity != 0,
        }
    }
}
