// The arguments of a record: big-endian numbers at fixed places, and floats by their bits.
ghost use Rattle.std.specs.Prelude.{◌≡◌, ◌+◌, ◌≤◌};
ghost use Rattle.oracle_lines.specs.Fields.{u32_of, u64_of, f32_of};

// One call, or one question to a part: its kind or the part's number, then its arguments.
pub type Record = [u8; 64];

#[tactic(auto, unfolding(octets::specs::Octets::bytes_at))]
pub fn u32_at<const N: usize>(fields: &[u8; N], at: usize) -> u32
    requires { at + 4 ≤ N }
    ensures { result ≡ u32_of fields.now at }
{
    octets::of_four(fields[at], fields[at + 1], fields[at + 2], fields[at + 3])
}

#[tactic(auto, unfolding(octets::specs::Octets::bytes_at, octets::specs::Octets::number_of, octets::specs::Octets::number_after))]
pub fn u64_at<const N: usize>(fields: &[u8; N], at: usize) -> u64
    requires { at + 8 ≤ N }
    ensures { result ≡ u64_of fields.now at }
{
    (u32_at(fields, at) as u64) * 0x1_0000_0000 + (u32_at(fields, at + 4) as u64)
}

pub fn usize_at<const N: usize>(fields: &[u8; N], at: usize) -> usize
    requires { at + 8 ≤ N }
    ensures { result ≡ u64_of fields.now at }
{
    u64_at(fields, at) as usize
}

pub fn f32_at<const N: usize>(fields: &[u8; N], at: usize) -> f32
    requires { at + 4 ≤ N }
    ensures { result ≡ f32_of fields.now at }
{
    binary32::from_bits(u32_at(fields, at))
}
