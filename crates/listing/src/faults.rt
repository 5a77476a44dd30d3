// What is wrong with a bad header or record.
ghost use Rattle.std.specs.Prelude.{◌≡◌, ◌≤◌, length};
ghost use Rattle.listing.specs.Faults.{header_fault_of, settings_fault_of, kind_fault_of, record_fault_of};

use crate::fields::half_at;
use crate::records::{Header, last_length_kind, length_of};
use octets::byte_at;

#[derive(Clone, Copy, PartialEq, Eq, Debug)]
pub enum HeaderFault {
    Empty,
    Cut,
    Version(u8),
    Channels(u8),
    Passthru(u8),
}

#[derive(Clone, Copy, PartialEq, Eq, Debug)]
pub enum RecordFault {
    NoLength,
    NoKind,
    TooLong(u32),
    Cut { has: usize, size: u32 },
    Kind(u8),
    Length { kind: u8, has: u32, asked: usize },
    Passthru(u8),
    LoopMode(u8),
    LengthKind { kind: u8, last: u8 },
    NoteOff(u8),
}

pub fn header_fault(bytes: &[u8]) -> Option<HeaderFault>
    ensures { result ≡ header_fault_of bytes.now }
{
    let version = byte_at(bytes, 0);
    let count = byte_at(bytes, 1);
    let passthru = byte_at(bytes, 2);
    if bytes.is_empty() {
        return Some(HeaderFault::Empty);
    }
    if bytes.len() != 3 {
        return Some(HeaderFault::Cut);
    }
    if !((version == 1) | (version == 2)) {
        return Some(HeaderFault::Version(version));
    }
    if !((count == 1) | (count == 2)) {
        return Some(HeaderFault::Channels(count));
    }
    if passthru > 1 {
        return Some(HeaderFault::Passthru(passthru));
    }
    None
}

fn settings_fault(h: Header, r: &[u8]) -> Option<RecordFault>
    ensures { result ≡ settings_fault_of h r.now }
{
    let passthru = byte_at(r, 11);
    let loop_mode = byte_at(r, 12);
    let kind = byte_at(r, 13);
    let last = last_length_kind(h);
    let note_off = byte_at(r, 26);
    if passthru > 1 {
        return Some(RecordFault::Passthru(passthru));
    }
    if loop_mode > 2 {
        return Some(RecordFault::LoopMode(loop_mode));
    }
    if kind > last {
        return Some(RecordFault::LengthKind { kind, last });
    }
    if note_off > 2 {
        return Some(RecordFault::NoteOff(note_off));
    }
    None
}

fn kind_fault(h: Header, r: &[u8]) -> Option<RecordFault>
    ensures { result ≡ kind_fault_of h r.now }
{
    let kind = byte_at(r, 2);
    let has = half_at(r, 0);
    let asked = length_of(h, kind);
    if kind > 7 {
        return Some(RecordFault::Kind(kind));
    }
    if has as usize != asked {
        return Some(RecordFault::Length { kind, has, asked });
    }
    if kind == 0 {
        return settings_fault(h, r);
    }
    None
}

pub fn record_fault(h: Header, r: &[u8]) -> Option<RecordFault>
    ensures { result ≡ record_fault_of h r.now }
{
    let size = half_at(r, 0);
    let n = r.len();
    if n < 2 {
        return Some(RecordFault::NoLength);
    }
    if size == 0 {
        return Some(RecordFault::NoKind);
    }
    if size > 45 {
        return Some(RecordFault::TooLong(size));
    }
    if n != size as usize + 2 {
        return Some(RecordFault::Cut { has: n - 2, size });
    }
    kind_fault(h, r)
}
