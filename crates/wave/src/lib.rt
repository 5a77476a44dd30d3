// Recordings as RIFF WAVE files of 32-bit floats, on bytes alone: a file is judged, its words are copied to a memory,
// and a memory's are written to a file. It takes every list of bytes, and each public function equals a definition in
// specs/, for every value of its arguments.
#![tactic(auto)]

pub mod chunks;
pub mod fields;
mod headers;
mod ids;
mod stores;
mod words;

ghost use Rattle.std.specs.Prelude.{◌≡◌, ◌^◌, ◌≤◌, ◌<◌, length};
ghost use Rattle.wave.specs.Files.{head_put, word_put};
ghost use Rattle.wave.specs.Reader.{good_riff, good_format, good_fact, counted_judged, judged_at, file_judged, judged_number};
ghost use Rattle.wave.specs.Memory.{fits_file, written_of, output_after, loads, loaded_of};

use chunks::Places;
use fields::{four_at, two_at};
use headers::{head_fits, put_header};
use ids::{RIFF, WAVE};
use stores::put_four;
use words::{ends_by, fits_memory, put_words, take_words};

// A good file: `samples` words for each of `channels` channels, frame by frame, stand from `first` on.
#[derive(Clone, Copy)]
pub struct Wave {
    pub rate: u32,
    pub channels: usize,
    pub samples: usize,
    pub first: usize,
}

#[derive(Clone, Copy)]
pub enum Judged {
    Is(Wave),
    Refused,
}

// Where the recordings of channels 0 and 1 begin in a memory. Of one channel the second isn't looked at.
#[derive(Clone, Copy)]
pub struct Starts {
    pub first: usize,
    pub second: usize,
}

// `samples` words of each of `channels` channels.
#[derive(Clone, Copy)]
pub struct Layout {
    pub channels: usize,
    pub samples: usize,
    pub starts: Starts,
}

impl Judged {
    // The number of the refusal; 0 where the file is good.
    pub fn number(self) -> u8
        ensures { result ≡ judged_number self }
    {
        match self {
            Judged::Is(_) => 0,
            Judged::Refused => 17,
        }
    }
}

pub fn good_riff(file: &[u8]) -> bool
    ensures { result ≡ good_riff file.now }
{
    let all = file.len();
    if all < 12 {
        return false;
    }
    if four_at(file, 0) != RIFF {
        return false;
    }
    if 8 + four_at(file, 4) as usize != all {
        return false;
    }
    four_at(file, 8) == WAVE
}

fn good_format(file: &[u8], at: usize) -> bool
    requires { at < 2 ^ 63 }
    ensures { result ≡ good_format file.now at }
{
    if four_at(file, at + 4) != 18 {
        return false;
    }
    if two_at(file, at + 8) != 3 {
        return false;
    }
    let channels = two_at(file, at + 10);
    if channels < 1 {
        return false;
    }
    if two_at(file, at + 20) != 4 * channels {
        return false;
    }
    if two_at(file, at + 22) != 32 {
        return false;
    }
    two_at(file, at + 24) == 0
}

fn good_fact(file: &[u8], at: usize, samples: usize) -> bool
    requires { at < 2 ^ 63 }
    ensures { result ≡ good_fact file.now at samples }
{
    if at == 0 {
        return true;
    }
    if four_at(file, at + 4) != 4 {
        return false;
    }
    four_at(file, at + 8) as usize == samples
}

// A format with blocks of so many bytes, and so many bytes of data.
fn counted(file: &[u8], p: Places, block: usize, size: usize) -> Judged
    requires block_nonzero { 0 < block }
    requires format_bound { (p.format < 2 ^ 63) × (p.words < 2 ^ 63) × (p.fact < 2 ^ 63) }
    ensures { result ≡ counted_judged file.now p block size }
{
    if size % block != 0 {
        return Judged::Refused;
    }
    let samples = size / block;
    if good_fact(file, p.fact, samples) {
        Judged::Is(Wave {
            rate: four_at(file, p.format + 12),
            channels: two_at(file, p.format + 10) as usize,
            samples,
            first: p.words + 8,
        })
    } else {
        Judged::Refused
    }
}

fn judged_at(file: &[u8], p: Places) -> Judged
    requires { (p.format < 2 ^ 63) × (p.words < 2 ^ 63) × (p.fact < 2 ^ 63) }
    ensures { result ≡ judged_at file.now p }
{
    if p.words == 0 {
        return Judged::Refused;
    }
    if good_format(file, p.format) {
        let block = 4 * two_at(file, p.format + 10) as usize;
        counted(file, p, block, four_at(file, p.words + 4) as usize)
    } else {
        Judged::Refused
    }
}

// Whether a file is good, and what it holds.
pub fn judge(file: &[u8]) -> Judged
    ensures { result ≡ file_judged file.now }
{
    if good_riff(file) {
        match chunks::walk(file) {
            Some(p) => judged_at(file, p),
            None => Judged::Refused,
        }
    } else {
        Judged::Refused
    }
}

// Whether each size has room in its field, and the file in so many bytes.
fn fits_file(l: Layout, room: usize) -> bool
    requires { (0 < l.channels) × (l.channels ≤ 2) }
    ensures { result ≡ fits_file l room }
{
    if 0x3fff_ffff < l.samples {
        return false;
    }
    let bytes = 58 + 4 * (l.channels * l.samples);
    if 0x1_0000_0008 <= bytes {
        return false;
    }
    bytes <= room
}

// Writes the recordings of a memory, and answers how many bytes; 0 where they have no room, and nothing is written.
pub fn write(rate: u32, l: Layout, memory: &[u32], out: &mut [u8]) -> usize
    ensures value { result ≡ written_of l (length memory.now) (length out.old) }
    ensures out_after { out.new ≡ output_after rate l memory.now out.old }
{
    if fits_memory(l, memory.len()) {
        if fits_file(l, out.len()) {
            put_header(out, rate, l.channels as u32, l.samples as u32);
            put_words(l, memory, out);
            return 58 + 4 * (l.channels * l.samples);
        }
        return 0;
    }
    0
}

// Stores the words of a good file, each channel's from its start on, and answers whether they had room; else nothing is
// stored.
pub fn load(file: &[u8], starts: Starts, memory: &mut [u32]) -> bool
    ensures value { result ≡ loads file.now starts (length memory.old) }
    ensures memory_after { memory.new ≡ loaded_of file.now starts memory.old }
{
    match judge(file) {
        Judged::Refused => false,
        Judged::Is(w) => {
            let l = Layout {
                channels: w.channels,
                samples: w.samples,
                starts,
            };
            if fits_memory(l, memory.len()) {
                take_words(file, w, starts, memory);
                true
            } else {
                false
            }
        }
    }
}

// For whoever has words of another memory. The 58 bytes before the first of them, where all sizes have room; else nothing
// is written.
pub fn put_head(out: &mut [u8], rate: u32, channels: u32, samples: u32)
    ensures { out.new ≡ head_put out.old rate channels samples }
{
    if head_fits(channels, samples, out.len()) {
        put_header(out, rate, channels, samples);
    }
}

// And a word from a place on, where there is room for it.
pub fn put_word(out: &mut [u8], at: usize, word: u32)
    ensures { out.new ≡ word_put out.old at word }
{
    if ends_by(at, 4, out.len()) {
        put_four(out, at, word);
    }
}
