// Why a call is refused: each reason of document 01's table, and of the requests of document 02 behind it, with its number.
#![tactic(auto)]

ghost use Rattle.std.specs.Prelude.{◌≡◌};
ghost use Rattle.refusals.specs.Refusals.{number_of, code_of, row};

use std::fmt;

#[derive(Clone, Copy, PartialEq, Eq, Debug)]
pub enum Refusal {
    // No such channel, or a frame of more entries than there are channels.
    NoChannel,
    // A note's channel above 15.
    BadNote,
    // A start position that isn't in 0 to 1.
    BadPosition,
    // Attack, decay or loop length above its limit.
    BeyondLimits,
    // A channel with a recording has 32 voices.
    Full,
    // A clock stands at 2^48.
    ClockEnd,
    // A bad argument to a small part.
    BadArgument,
    // The lent list is shorter than the answer.
    ShortList,
    // A broken record, or too little memory.
    Broken,
    // A run that isn't of whole frames.
    BadRun,
    // A summary of more than 4,096 columns.
    TooManyColumns,
    // A file that breaks the Standard MIDI File 1.0 document.
    BadSong,
    // A song of another format than 0, or with SMPTE times.
    OtherFormat,
    // A start or stop after frame 2^48.
    LateSong,
    // A WAVE file is written or read while recording.
    Recording,
    // Recordings of two lengths, or a WAVE file of another channel count.
    OtherChannels,
    // No WAVE file of 32-bit floats, or sizes in it disagree.
    BadWave,
    // A WAVE file of more samples than the chosen phrase may hold.
    NoRoom,
    // A phrase number of 8 or more.
    NoPhrase,
    // A delete of a phrase that a voice plays or that is being recorded.
    PhraseInUse,
    // A gather, or another choice of phrase, while recording.
    PhraseRecording,
    // A song's rate that isn't in 1 to 192,000.
    BadRate,
}

impl Refusal {
    // The number in document 01's table, or in the request that adds one.
    pub fn number(self) -> u8
        ensures { result ≡ number_of self }
    {
        match self {
            Refusal::NoChannel => 1,
            Refusal::BadNote => 2,
            Refusal::BadPosition => 3,
            Refusal::BeyondLimits => 4,
            Refusal::Full => 5,
            Refusal::ClockEnd => 6,
            Refusal::BadArgument => 7,
            Refusal::ShortList => 8,
            Refusal::Broken => 9,
            Refusal::BadRun => 10,
            Refusal::TooManyColumns => 11,
            Refusal::BadSong => 12,
            Refusal::OtherFormat => 13,
            Refusal::LateSong => 14,
            Refusal::Recording => 15,
            Refusal::OtherChannels => 16,
            Refusal::BadWave => 17,
            Refusal::NoRoom => 18,
            Refusal::NoPhrase => 19,
            Refusal::PhraseInUse => 20,
            Refusal::PhraseRecording => 21,
            Refusal::BadRate => 22,
        }
    }

    // A row of the table: the refusal where its test holds.
    pub fn when(self, test: bool) -> Result<(), Refusal>
        ensures { result ≡ row test self (Ok tt) }
    {
        if test { Err(self) } else { Ok(()) }
    }
}

// What a call answers to a host: 0 for done, or the number of its refusal.
pub fn code(done: Result<(), Refusal>) -> u8
    ensures { result ≡ code_of done }
{
    match done {
        Ok(()) => 0,
        Err(refusal) => refusal.number(),
    }
}

impl fmt::Display for Refusal {
    fn fmt<W: fmt::Write>(&self, f: &mut fmt::Formatter<W>) -> fmt::Result {
        f.write_str(match self {
            Refusal::NoChannel =>
                "no such channel, or a frame of more entries than there are channels",
            Refusal::BadNote => "a note's channel is above 15",
            Refusal::BadPosition => "the start position isn't in 0 to 1",
            Refusal::BeyondLimits => "attack, decay or loop length is above its limit",
            Refusal::Full => "a channel with a recording has 32 voices",
            Refusal::ClockEnd => "a clock stands at its end",
            Refusal::BadArgument => "a bad argument to a small part",
            Refusal::ShortList => "the list is shorter than the answer",
            Refusal::Broken => "a broken record, or too little memory",
            Refusal::BadRun => "the run isn't of whole frames",
            Refusal::TooManyColumns => "more than 4,096 columns",
            Refusal::BadSong => "the file breaks the Standard MIDI File 1.0 document",
            Refusal::OtherFormat => "a song of another format than 0, or with SMPTE times",
            Refusal::LateSong => "a start or stop after the last frame",
            Refusal::Recording => "a WAVE file is written or read while recording",
            Refusal::OtherChannels =>
                "recordings of two lengths, or a WAVE file of another channel count",
            Refusal::BadWave => "no WAVE file of 32-bit floats, or its sizes disagree",
            Refusal::NoRoom => "more samples than the chosen phrase may hold",
            Refusal::NoPhrase => "the phrase number is 8 or more",
            Refusal::PhraseInUse => "a voice plays the phrase, or it is being recorded",
            Refusal::PhraseRecording => "a gather, or another choice of phrase, while recording",
            Refusal::BadRate => "the song's rate isn't in 1 to 192,000",
        })
    }
}
