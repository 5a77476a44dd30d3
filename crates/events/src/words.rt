// What the program says on standard error: why a header or a record is bad, and that its output was lost.
use listing::faults::{HeaderFault, RecordFault, header_fault, record_fault};
use listing::records::Header;

pub fn lost(rt: &impl Eprint) {
    say(rt, "events: the output was lost: it could not be written\n");
}

pub fn unread(rt: &impl Eprint) {
    say(rt, "events: the input could not be read\n");
}

// Why a header is bad.
pub fn of_header(rt: &impl Eprint, bytes: &[u8]) {
    at(rt, 0);
    match header_fault(bytes) {
        None => say(rt, "nothing is wrong"),
        Some(HeaderFault::Empty) => say(rt, "the input is empty"),
        Some(HeaderFault::Cut) => say(rt, "the header is cut short: it has 3 bytes"),
        Some(HeaderFault::Version(n)) => told(
            rt,
            "version ",
            n as u64,
            ", where there are 1 and 2",
        ),
        Some(HeaderFault::Channels(n)) => told(
            rt,
            "",
            n as u64,
            " channels, where there are 1 or 2",
        ),
        Some(HeaderFault::Passthru(n)) => told(
            rt,
            "auto pass-through ",
            n as u64,
            ", where 0 is off and 1 on",
        ),
    }
    say(rt, "\n");
}

// Why the record that begins at `offset` is bad.
pub fn of_record(rt: &impl Eprint, offset: u64, header: Header, bytes: &[u8]) {
    at(rt, offset);
    match record_fault(header, bytes) {
        None => say(rt, "nothing is wrong"),
        Some(RecordFault::NoLength) => say(rt, "the record is cut short: its length has 2 bytes"),
        Some(RecordFault::NoKind) => say(rt, "a length of 0, where each record has a kind"),
        Some(RecordFault::TooLong(size)) => told(
            rt,
            "a length of ",
            size as u64,
            ", where no kind has more than 45",
        ),
        Some(RecordFault::Cut { has, size }) => cut(rt, has as u64, size as u64),
        Some(RecordFault::Kind(kind)) => told(
            rt,
            "unknown kind ",
            kind as u64,
            ", where there are 0 to 7",
        ),
        Some(RecordFault::Length { kind, has, asked }) => length(
            rt,
            kind as u64,
            has as u64,
            asked as u64,
        ),
        Some(RecordFault::Passthru(n)) => told(
            rt,
            "pass-through ",
            n as u64,
            ", where 0 is off and 1 on",
        ),
        Some(RecordFault::LoopMode(n)) => told(
            rt,
            "loop mode ",
            n as u64,
            ", where there are 0 to 2",
        ),
        Some(RecordFault::LengthKind { kind, last }) => {
            told(rt, "length kind ", kind as u64, ", where there are 0 to ");
            told(rt, "", last as u64, "");
        }
        Some(RecordFault::NoteOff(n)) => told(
            rt,
            "note-off mode ",
            n as u64,
            ", where there are 0 to 2",
        ),
    }
    say(rt, "\n");
}

fn say(rt: &impl Eprint, text: &str) {
    let _ = rt.eprint(text);
}

fn told(rt: &impl Eprint, before: &str, n: u64, after: &str) {
    let _ = eprint!(rt; "{before}{n}{after}");
}

fn at(rt: &impl Eprint, offset: u64) {
    told(rt, "events: at byte ", offset, ": ");
}

fn cut(rt: &impl Eprint, has: u64, size: u64) {
    told(rt, "the record is cut short: ", has, " of its ");
    told(rt, "", size, " bytes are there");
}

fn length(rt: &impl Eprint, kind: u64, has: u64, asked: u64) {
    told(rt, "a length of ", has, ", where kind ");
    if kind == 6 {
        told(
            rt,
            "6 has 5 with one channel and 9 with two: here ",
            asked,
            "",
        );
    } else {
        told(rt, "", kind, " has ");
        told(rt, "", asked, "");
    }
}
