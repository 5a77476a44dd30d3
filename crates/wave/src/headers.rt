// The 58 bytes before the first sample, row by row.
ghost use Rattle.std.specs.Prelude.{◌≡◌, ◌++◌, ◌+◌, ◌*◌, ◌%◌, ◌^◌, ◌≤◌, ◌<◌, length};
ghost use Rattle.std.proofs.lemmas.List.Edits.{sets};
ghost use Rattle.wave.specs.Files.{riff_row, format_row, fact_row, data_row, header_of, head_fits};

use crate::ids::{DATA, FACT, FORMAT, RIFF, WAVE};
use crate::stores::{put_four, put_two};

fn put_riff(out: &mut [u8], bytes: u32)
    requires { (50 + bytes < 2 ^ 32) × (58 ≤ length out.old) }
    ensures { out.new ≡ sets out.old 0 (riff_row bytes) }
{
    put_four(out, 0, RIFF);
    put_four(out, 4, 50 + bytes);
    put_four(out, 8, WAVE);
}

// Bytes a second, of which 32 bits have room.
fn byte_rate(rate: u32, channels: u32) -> u32
    requires { 4 * channels < 2 ^ 16 }
    ensures { result ≡ 4 * channels * rate % 2 ^ 32 }
{
    ((4 * channels) as u64 * rate as u64 % 0x1_0000_0000) as u32
}

fn put_format(out: &mut [u8], rate: u32, channels: u32)
    requires { (4 * channels < 2 ^ 16) × (58 ≤ length out.old) }
    ensures { out.new ≡ sets out.old 12 (format_row rate channels) }
{
    put_four(out, 12, FORMAT);
    put_four(out, 16, 18);
    put_two(out, 20, 3);
    put_two(out, 22, channels);
    put_four(out, 24, rate);
    put_four(out, 28, byte_rate(rate, channels));
    put_two(out, 32, 4 * channels);
    put_two(out, 34, 32);
    put_two(out, 36, 0);
}

fn put_sizes(out: &mut [u8], samples: u32, bytes: u32)
    requires { 58 ≤ length out.old }
    ensures { out.new ≡ sets out.old 38 (fact_row samples ++ data_row bytes) }
{
    put_four(out, 38, FACT);
    put_four(out, 42, 4);
    put_four(out, 46, samples);
    put_four(out, 50, DATA);
    put_four(out, 54, bytes);
}

pub fn put_header(out: &mut [u8], rate: u32, channels: u32, samples: u32)
    requires { (4 * channels < 2 ^ 16) × (50 + 4 * (channels * samples) < 2 ^ 32) × (58 ≤ length out.old) }
    ensures { out.new ≡ sets out.old 0 (header_of rate channels samples) }
{
    let bytes = 4 * (channels * samples);
    put_riff(out, bytes);
    put_format(out, rate, channels);
    put_sizes(out, samples, bytes);
}

// Whether each size has room in its field, and the header in so many bytes.
pub fn head_fits(channels: u32, samples: u32, room: usize) -> bool
    ensures { result ≡ head_fits channels samples room }
{
    if 0x3fff < channels {
        return false;
    }
    (50 + 4 * (channels as u64 * samples as u64) < 0x1_0000_0000) & (58 <= room)
}
