// Bytes of a song of format 0.
ghost use Rattle.std.specs.Prelude.{◌≡◌, ◌+◌, ◌-◌, ◌^◌, ◌≤◌, ◌<◌, length};
ghost use Rattle.std.proofs.lemmas.List.Edits.{sets};
ghost use Rattle.octets.specs.Octets.{bytes_at};
ghost use Rattle.song_merge.specs.Written.{delta_bytes, whole_event, event_bytes, end_bytes, heading_bytes};

use crate::cursors::Cursor;
use octets::byte_at;

// A delta-time in as few bytes as it has room in.
pub fn put_delta(out: &mut [u8], at: usize, n: u32) -> usize
    requires { (n < 2 ^ 28) × (at + 4 ≤ length out.old) }
    ensures value { result ≡ at + length (delta_bytes n) }
    ensures out_after { out.new ≡ sets out.old at (delta_bytes n) }
{
    if n < 128 {
        out[at] = n as u8;
        return at + 1;
    }
    if n < 16384 {
        out[at] = (128 + n / 128) as u8;
        out[at + 1] = (n % 128) as u8;
        return at + 2;
    }
    if n < 2097152 {
        out[at] = (128 + n / 128 / 128) as u8;
        out[at + 1] = (128 + n / 128 % 128) as u8;
        out[at + 2] = (n % 128) as u8;
        return at + 3;
    }
    out[at] = (128 + n / 128 / 128 / 128) as u8;
    out[at + 1] = (128 + n / 128 / 128 % 128) as u8;
    out[at + 2] = (128 + n / 128 % 128) as u8;
    out[at + 3] = (n % 128) as u8;
    at + 4
}

pub fn copy(list: &[u8], from: usize, size: usize, out: &mut [u8], at: usize)
    requires { (from + size < 2 ^ 64) × (at + size ≤ length out.old) }
    ensures { out.new ≡ sets out.old at (bytes_at size list.now from) }
{
    for i in 0..size {
        out[at + i] = byte_at(list, from + i);
    }
}

// The event before which a cursor stands, with its status byte.
fn put_told(list: &[u8], c: Cursor, out: &mut [u8], at: usize) -> usize
    requires { (c.from ≤ c.next) × (at + 1 + (c.next - c.from) ≤ length out.old) }
    ensures value { result ≡ at + length (whole_event list.now c) }
    ensures out_after { out.new ≡ sets out.old at (whole_event list.now c) }
{
    let from = c.from;
    let size = c.next - c.from;
    if byte_at(list, from) < 128 {
        out[at] = c.before;
        copy(list, from, size, out, at + 1);
        return at + 1 + size;
    }
    copy(list, from, size, out, at);
    at + size
}

pub fn put_event(list: &[u8], c: Cursor, out: &mut [u8], at: usize) -> usize
    requires { (c.wait < 2 ^ 28) × (c.from ≤ c.next) × (at + 5 + (c.next - c.from) ≤ length out.old) }
    ensures value { result ≡ at + length (event_bytes list.now c) }
    ensures out_after { out.new ≡ sets out.old at (event_bytes list.now c) }
{
    let place = put_delta(out, at, c.wait);
    put_told(list, c, out, place)
}

// End of Track.
pub fn put_end(out: &mut [u8], at: usize, wait: u32) -> usize
    requires { (wait < 2 ^ 28) × (at + 7 ≤ length out.old) }
    ensures value { result ≡ at + length (end_bytes wait) }
    ensures out_after { out.new ≡ sets out.old at (end_bytes wait) }
{
    let place = put_delta(out, at, wait);
    out[place] = 0xff;
    out[place + 1] = 0x2f;
    out[place + 2] = 0;
    place + 3
}

// All that stands before the events of a track of so many bytes: `MThd`, six bytes, format 0 with one track, the
// division, `MTrk` and the size.
pub fn put_heading(out: &mut [u8], division: u32, size: u32)
    requires { (division < 2 ^ 16) × (22 ≤ length out.old) }
    ensures { out.new ≡ sets out.old 0 (heading_bytes division size) }
{
    let heading = [
        0x4d,
        0x54,
        0x68,
        0x64,
        0,
        0,
        0,
        6,
        0,
        0,
        0,
        1,
        (division / 256) as u8,
        (division % 256) as u8,
        0x4d,
        0x54,
        0x72,
        0x6b,
        (size / 256 / 256 / 256) as u8,
        (size / 256 / 256 % 256) as u8,
        (size / 256 % 256) as u8,
        (size % 256) as u8,
    ];
    copy(&heading, 0, 22, out, 0);
}
