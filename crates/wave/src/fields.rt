// Numbers at a place of a file, the least significant byte first.
ghost use Rattle.std.specs.Prelude.{◌≡◌, ◌+◌, ◌^◌, ◌≤◌, ◌<◌};
ghost use Rattle.octets.specs.Octets.{byte_at};
ghost use Rattle.wave.specs.Fields.{two_at, four_at};

use octets::byte_at;

// No file has a byte from 2^63 on.
fn byte_behind(file: &[u8], at: usize, by: usize) -> u8
    requires { by ≤ 3 }
    ensures { result ≡ byte_at file.now (at + by) }
{
    if at < 0x8000_0000_0000_0000 {
        byte_at(file, at + by)
    } else {
        0
    }
}

pub fn two_at(file: &[u8], at: usize) -> u32
    ensures value { result ≡ two_at file.now at }
    ensures upper_bound { result < 2 ^ 16 }
{
    octets::little_two(byte_at(file, at), byte_behind(file, at, 1))
}

pub fn four_at(file: &[u8], at: usize) -> u32
    ensures { result ≡ four_at file.now at }
{
    octets::little_four(
        byte_at(file, at),
        byte_behind(file, at, 1),
        byte_behind(file, at, 2),
        byte_behind(file, at, 3),
    )
}
