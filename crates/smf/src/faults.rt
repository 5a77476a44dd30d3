// What is wrong with a file, and where: a byte that is missing, or the last byte of the field that breaks a rule.
ghost use Rattle.std.specs.Prelude.{◌≡◌};
ghost use Rattle.smf.specs.Faults.{refusal_of};

#[derive(Clone, Copy, PartialEq, Eq, Debug)]
pub enum Reason {
    // The file, or the track, ends where a byte is due.
    Missing,
    NoHeader,
    ShortHeader,
    OtherFormat,
    OtherTrackCount,
    SmpteDivision,
    NoDivision,
    SecondHeader,
    SecondTrack,
    NoTrack,
    NoEndOfTrack,
    BehindEndOfTrack,
    LongQuantity,
    NoRunningStatus,
    SystemStatus,
    NoDataByte,
    NoMetaType,
    ShortTempo,
    LateFrame,
}

#[derive(Clone, Copy, PartialEq, Eq, Debug)]
pub struct Fault {
    pub reason: Reason,
    pub at: usize,
}

// The number of the refusal.
pub fn refusal(reason: Reason) -> u8
    ensures { result ≡ refusal_of reason }
{
    match reason {
        Reason::OtherFormat => 13,
        Reason::SmpteDivision => 13,
        Reason::LateFrame => 14,
        _ => 12,
    }
}
