// Numbers at a place of a file: two, three or four bytes, and a variable-length quantity.
ghost use Rattle.std.specs.Prelude.{◌≡◌, ◌^◌, ◌<◌};
ghost use Rattle.smf.specs.Fields.{two_at, three_at, four_at, quantity_at};

use crate::faults::{Fault, Reason};
use octets::byte_at;

pub fn two_at(file: &[u8], at: usize) -> u32
    requires { at < 2 ^ 63 }
    ensures value { result ≡ two_at file.now at }
    ensures upper_bound { result < 2 ^ 16 }
{
    octets::of_two(byte_at(file, at), byte_at(file, at + 1))
}

pub fn three_at(file: &[u8], at: usize) -> u32
    requires { at < 2 ^ 63 }
    ensures { result ≡ three_at file.now at }
{
    octets::of_three(
        byte_at(file, at),
        byte_at(file, at + 1),
        byte_at(file, at + 2),
    )
}

pub fn four_at(file: &[u8], at: usize) -> u32
    requires { at < 2 ^ 63 }
    ensures { result ≡ four_at file.now at }
{
    octets::of_four(
        byte_at(file, at),
        byte_at(file, at + 1),
        byte_at(file, at + 2),
        byte_at(file, at + 3),
    )
}

// A quantity and the place behind it. `used` bytes stand before this place, of four at most.
pub fn quantity_at(file: &[u8], end: usize, at: usize) -> Result<(u32, usize), Fault>
    ensures { result ≡ quantity_at file.now end at }
{
    let mut used: u32 = 0;
    let mut value: u32 = 0;
    let mut place = at;
    loop {
        if end <= place {
            return Err(Fault {
                reason: Reason::Missing,
                at: place,
            });
        }
        let byte = byte_at(file, place) as u32;
        if byte < 128 {
            return Ok((value * 128 + byte, place + 1));
        }
        if used == 3 {
            return Err(Fault {
                reason: Reason::LongQuantity,
                at: place,
            });
        }
        value = value * 128 + (byte - 128);
        place += 1;
        used += 1;
    }
}
