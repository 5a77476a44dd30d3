// The fields of a record: big-endian numbers, and floats by their bits. A byte past the end is 0.
ghost use Rattle.std.specs.Prelude.{◌≡◌, ◌<◌};
ghost use Rattle.listing.specs.Records.{half_at, word_at, float_at};

use octets::byte_at;

pub fn half_at(r: &[u8], i: usize) -> u32
    requires { i < 64 }
    ensures value { result ≡ half_at r.now i }
    ensures upper_bound { result < 65536 }
{
    octets::of_two(byte_at(r, i), byte_at(r, i + 1))
}

pub fn word_at(r: &[u8], i: usize) -> u32
    requires { i < 48 }
    ensures { result ≡ word_at r.now i }
{
    octets::of_four(
        byte_at(r, i),
        byte_at(r, i + 1),
        byte_at(r, i + 2),
        byte_at(r, i + 3),
    )
}

pub fn float_at(r: &[u8], i: usize) -> f32
    requires { i < 48 }
    ensures { result ≡ float_at r.now i }
{
    binary32::from_bits(word_at(r, i))
}
