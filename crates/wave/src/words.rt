// The words of a recording, from a memory to a file and back. In a memory each channel's stand one behind the other, from
// a place of its own on; in a file the words of all channels stand frame by frame.
ghost use Rattle.std.specs.Prelude.{◌≡◌, true, ◌+◌, ◌*◌, ◌≤◌, ◌<◌, leb, length};
ghost use Rattle.std.proofs.lemmas.List.Edits.{sets};
ghost use Rattle.wave.specs.Fields.{word_bytes, listed};
ghost use Rattle.wave.specs.Reader.{words_in};
ghost use Rattle.wave.specs.Memory.{fits_memory, word_of, frame_words, channel_words, stored_of, layout_of};

use crate::stores::put_four;
use crate::{Layout, Starts, Wave};
use octets::little_four;

// Whether so many words, or bytes, from a place on end at a limit, or before it.
pub fn ends_by(start: usize, words: usize, limit: usize) -> bool
    ensures { result ≡ leb (start + words) limit }
{
    if limit < start {
        return false;
    }
    words <= limit - start
}

pub fn fits_memory(l: Layout, size: usize) -> bool
    ensures { result ≡ fits_memory l size }
{
    let starts = l.starts;
    if l.channels == 1 {
        return ends_by(starts.first, l.samples, size);
    }
    if l.channels != 2 {
        return false;
    }
    if ends_by(starts.first, l.samples, starts.second) {
        ends_by(starts.second, l.samples, size)
    } else {
        false
    }
}

// Writes frame i, a word of each channel.
fn put_frame(l: Layout, i: usize, memory: &[u32], out: &mut [u8])
    requires memory_value { fits_memory l (length memory.now) ≡ true }
    requires samples_in_bounds { 58 + 4 * (l.channels * l.samples) ≤ length out.old }
    requires i_lt_samples { i < l.samples }
    ensures { out.new ≡ sets out.old (58 + 4 * (i * l.channels))
        (word_bytes (listed (word_of l memory.now) (i * l.channels) l.channels)) }
{
    let starts = l.starts;
    let at = 58 + 4 * (i * l.channels);
    let first = starts.first + i;
    put_four(out, at, memory[first]);
    if l.channels == 2 {
        let second = starts.second + i;
        put_four(out, at + 4, memory[second]);
    }
}

// Writes the words of a memory behind a header of 58 bytes.
pub fn put_words(l: Layout, memory: &[u32], out: &mut [u8])
    requires memory_value { fits_memory l (length memory.now) ≡ true }
    requires samples_in_bounds { 58 + 4 * (l.channels * l.samples) ≤ length out.old }
    ensures { out.new ≡ sets out.old 58 (word_bytes (frame_words l memory.now)) }
{
    for i in 0..l.samples {
        put_frame(l, i, memory, out);
    }
}

// Stores the words of channel j of a file from a place on.
fn take_channel(file: &[u8], w: Wave, j: usize, start: usize, memory: &mut [u32])
    requires samples_in_bounds { w.first + 4 * (w.channels * w.samples) ≤ length file.now }
    requires j_lt_channels { (j < w.channels) × (start + w.samples ≤ length memory.old) }
    ensures { memory.new
        ≡ sets memory.old start (channel_words w.channels w.samples j (words_in file.now w)) }
{
    for i in 0..w.samples {
        let at = w.first + 4 * (i * w.channels + j);
        let to = start + i;
        memory[to] = little_four(file[at], file[at + 1], file[at + 2], file[at + 3]);
    }
}

// Stores the words of a file, each channel's from its start on.
pub fn take_words(file: &[u8], w: Wave, starts: Starts, memory: &mut [u32])
    requires samples_in_bounds { w.first + 4 * (w.channels * w.samples) ≤ length file.now }
    requires memory_value { fits_memory (layout_of w starts) (length memory.old) ≡ true }
    ensures { memory.new
        ≡ stored_of (layout_of w starts) (words_in file.now w) memory.old }
{
    take_channel(file, w, 0, starts.first, memory);
    if w.channels == 2 {
        take_channel(file, w, 1, starts.second, memory);
    }
}
