// The bytes of a file, and the numbers that they make, two, three or four of them, the most significant first; two or
// four also the least significant first (`little_`), which is the same of the bytes in that order. Each function equals
// a definition in specs/Octets.antt, for every value of its arguments.
#![tactic(auto)]

ghost use Rattle.std.specs.Prelude.{◌≡◌, [], ◌∷◌, ◌^◌, ◌<◌};
ghost use Rattle.octets.specs.Octets.{byte_at, number_of, little_of};

// A byte past the end is 0.
pub fn byte_at(bytes: &[u8], at: usize) -> u8
    ensures { result ≡ byte_at bytes.now at }
{
    if at < bytes.len() { bytes[at] } else { 0 }
}

// A byte as a wider number.
fn wide(x: u8) -> u32
    ensures value { result ≡ x }
    ensures upper_bound { result < 256 }
{
    x as u32
}

pub fn of_two(a: u8, b: u8) -> u32
    ensures value { result ≡ number_of (a ∷ b ∷ []) }
    ensures upper_bound { result < 2 ^ 16 }
{
    wide(a) * 256 + wide(b)
}

pub fn of_three(a: u8, b: u8, c: u8) -> u32
    ensures value { result ≡ number_of (a ∷ b ∷ c ∷ []) }
    ensures upper_bound { result < 2 ^ 24 }
{
    of_two(a, b) * 256 + wide(c)
}

pub fn of_four(a: u8, b: u8, c: u8, d: u8) -> u32
    ensures { result ≡ number_of (a ∷ b ∷ c ∷ d ∷ []) }
{
    of_three(a, b, c) * 256 + wide(d)
}

pub fn little_two(a: u8, b: u8) -> u32
    ensures value { result ≡ little_of (a ∷ b ∷ []) }
    ensures upper_bound { result < 2 ^ 16 }
{
    of_two(b, a)
}

pub fn little_four(a: u8, b: u8, c: u8, d: u8) -> u32
    ensures { result ≡ little_of (a ∷ b ∷ c ∷ d ∷ []) }
{
    of_four(d, c, b, a)
}
