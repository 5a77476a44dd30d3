// A song of format 1 becomes one of format 0: the events of all its tracks in one, by tick and then by track. An event
// keeps its bytes, but for its delta-time and a status byte that running status left out; the last tick is that of the
// track that ends last. Tracks are merged one after another, so the cost is events times tracks.
#![tactic(auto)]

mod chunks;
mod cursors;
mod merging;
mod writing;

ghost use Rattle.std.specs.Prelude.{◌≡◌, length};
ghost use Rattle.song_merge.specs.Answers.{Answers};

use chunks::opening;
use merging::{Unmerged, gather};
use smf::faults::refusal;
use writing::put_heading;

// How many bytes of the list are the song, with 0; with 8 so many are enough for either list; otherwise 0.
// No Result: the C interface hands out both, as they are (host::files::merge_song).
#[derive(Clone, Copy)]
pub struct Merged {
    pub length: usize,
    pub number: u8,
}

fn refused(number: u8) -> Merged
    ensures { result ≡ record { length = 0; number = number } }
{
    Merged { length: 0, number }
}

// Both lists are overwritten. What they hold is promised with 0 only, of the first `length` bytes of `out`.
pub fn merge(file: &[u8], spare: &mut [u8], out: &mut [u8]) -> Merged
    ensures { Answers file.now (length spare.old) out.new result }
{
    match opening(file) {
        Err(fault) => refused(refusal(fault.reason)),
        Ok(o) => match gather(file, o.count, o.next, spare, out) {
            Err(Unmerged::Broken) => refused(12),
            Err(Unmerged::Short) => Merged {
                length: 2 * file.len(),
                number: 8,
            },
            Ok(end) => {
                put_heading(out, o.division, (end - 22) as u32);
                Merged {
                    length: end,
                    number: 0,
                }
            }
        },
    }
}
