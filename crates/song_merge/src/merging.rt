// Two tracks in one, and so all tracks of a song.
ghost use Rattle.std.specs.Prelude.{◌≡◌, ◌≤◌, ◌<◌, length};
ghost use Rattle.song_merge.specs.Gathers.{Joined, Grown, Started, gathered_to, GathersTracks};

use crate::chunks::chunk_end;
use crate::cursors::{goes_first, look, waited};
use crate::writing::{copy, put_end, put_event};
use smf::chunks::track_at;
use smf::faults::Fault;

// A track of `a` from 22 to `a_end`, and one of the file from a place to another, in one that stands at the front of
// `out`: the place behind it, or 0 where it has no room. An event takes five bytes more than it has at most.
pub fn join(a: &[u8], a_end: usize, file: &[u8], at: usize, end: usize, out: &mut [u8]) -> usize
    requires { (a_end ≤ length a.now) × (end ≤ length file.now) }
    ensures { Joined a.now a_end file.now at end out.new result }
{
    let room = out.len();
    let mut x = look(a, a_end, 0, 22);
    let mut y = look(file, end, 0, at);
    let mut w: usize = 0;
    loop {
        if goes_first(x, y) {
            if room - w < 5 + (x.next - x.from) {
                return 0;
            }
            w = put_event(a, x, out, w);
            y = waited(y, x.wait);
            x = look(a, a_end, x.after, x.next);
        } else if y.ended {
            if room - w < 7 {
                return 0;
            }
            return put_end(out, w, x.wait.max(y.wait));
        } else {
            if room - w < 5 + (y.next - y.from) {
                return 0;
            }
            w = put_event(file, y, out, w);
            x = waited(x, y.wait);
            y = look(file, end, y.after, y.next);
        }
    }
}

// The track that stands in `out` from 22 to `end` and one of the file, in one that stands there: the place behind it,
// or 0 where it has no room.
fn with_track(
    file: &[u8],
    at: usize,
    full: usize,
    spare: &mut [u8],
    out: &mut [u8],
    end: usize,
) -> usize
    requires { (full ≤ length file.now) × (end ≤ length out.old) × (0 < end → 22 ≤ end) }
    ensures { Grown out.old end file.now at full (length spare.old)
        out.new result }
{
    if end == 0 {
        return 0;
    }
    let size = join(out, end, file, at, full, spare);
    if size == 0 {
        return 0;
    }
    if out.len() - 22 < size {
        return 0;
    }
    copy(spare, 0, size, out, 22);
    22 + size
}

// Why there is no merged track: the tracks are not whole, or it has no room.
#[derive(Clone, Copy)]
pub enum Unmerged {
    Short,
    Broken,
}

fn start(out: &mut [u8]) -> usize
    ensures { Started out.new result }
{
    if out.len() < 29 {
        return 0;
    }
    put_end(out, 22, 0)
}

// Behind the last track no other stands, and the merged one is short enough for a chunk.
fn closed(found: Result<Option<usize>, Fault>, end: usize) -> Result<usize, Unmerged>
    ensures { result ≡ gathered_to found end }
{
    match found {
        Err(_) => Err(Unmerged::Broken),
        Ok(track) => match track {
            Some(_) => Err(Unmerged::Broken),
            None => {
                if end == 0 {
                    return Err(Unmerged::Short);
                }
                if 0xffff_ffff < end {
                    return Err(Unmerged::Short);
                }
                Ok(end)
            }
        },
    }
}

// So many tracks of the file from a place on: the place behind the merged track, which begins at 22.
pub fn gather(
    file: &[u8],
    count: u32,
    at: usize,
    spare: &mut [u8],
    out: &mut [u8],
) -> Result<usize, Unmerged>
    requires { at ≤ length file.now }
    ensures { GathersTracks file.now count at (length spare.old) out.new result }
{
    let mut place = at;
    let mut end = start(out);
    for i in 0..count {
        match track_at(file, place) {
            Ok(None) => return Err(Unmerged::Broken),
            Err(_) => return Err(Unmerged::Broken),
            Ok(Some(chunk)) => {
                let full = chunk_end(file, chunk);
                if full == 0 {
                    return Err(Unmerged::Broken);
                }
                end = with_track(file, chunk + 8, full, spare, out, end);
                place = full;
            }
        }
    }
    closed(track_at(file, place), end)
}
