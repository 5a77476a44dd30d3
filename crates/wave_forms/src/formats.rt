// `fmt `: how the numbers of a file are written.
ghost use Rattle.std.specs.Prelude.{◌≡◌, ◌^◌, ◌<◌};
ghost use Rattle.wave_forms.specs.Reader.{bare_format, sub_format_at, extensible_at, tag_at, form_at, known_form, good_form};

use wave::fields::{four_at, two_at};

// `tag` is 1 for whole numbers, 3 for floats, and 0 where the chunk has no known shape.
#[derive(Clone, Copy)]
pub struct Form {
    pub tag: u32,
    pub channels: u32,
    pub rate: u32,
    pub block: u32,
    pub bits: u32,
}

// 16 bytes, or 18 of which the last two say that none follow.
fn plain_at(file: &[u8], at: usize) -> bool
    requires { at < 2 ^ 63 }
    ensures { result ≡ bare_format file.now at }
{
    let size = four_at(file, at + 4);
    (size == 16) | ((size == 18) & (two_at(file, at + 24) == 0))
}

// The 14 bytes of a sub-format behind its tag.
fn sub_format_at(file: &[u8], at: usize) -> bool
    requires { at < 2 ^ 63 }
    ensures { result ≡ sub_format_at file.now at }
{
    (four_at(file, at + 34) == 0)
        & (four_at(file, at + 38) == 0x0080_0010)
        & (four_at(file, at + 42) == 0x3800_aa00)
        & (two_at(file, at + 46) == 0x719b)
}

fn extensible_at(file: &[u8], at: usize) -> bool
    requires { at < 2 ^ 63 }
    ensures { result ≡ extensible_at file.now at }
{
    (four_at(file, at + 4) == 40)
        & (two_at(file, at + 8) == 0xfffe)
        & (two_at(file, at + 24) == 22)
        & (two_at(file, at + 26) <= two_at(file, at + 22))
        & sub_format_at(file, at)
}

fn tag_at(file: &[u8], at: usize) -> u32
    requires { at < 2 ^ 63 }
    ensures { result ≡ tag_at file.now at }
{
    if plain_at(file, at) {
        return two_at(file, at + 8);
    }
    if extensible_at(file, at) {
        return two_at(file, at + 32);
    }
    0
}

pub fn form_at(file: &[u8], at: usize) -> Form
    requires { at < 2 ^ 63 }
    ensures { result ≡ form_at file.now at }
{
    Form {
        tag: tag_at(file, at),
        channels: two_at(file, at + 10),
        rate: four_at(file, at + 12),
        block: two_at(file, at + 20),
        bits: two_at(file, at + 22),
    }
}

fn known(tag: u32, bits: u32) -> bool
    ensures { result ≡ known_form tag bits }
{
    ((tag == 1) & ((bits == 16) | (bits == 24) | (bits == 32)))
        | ((tag == 3) & ((bits == 32) | (bits == 64)))
}

// The file that is written has room for four bytes of each channel in a block of less than 2^16.
pub fn good_form(o: Form) -> bool
    ensures { result ≡ good_form o }
{
    (1 <= o.channels)
        & (o.channels <= 0x3fff)
        & known(o.tag, o.bits)
        & (o.block as u64 == o.channels as u64 * (o.bits / 8) as u64)
}
