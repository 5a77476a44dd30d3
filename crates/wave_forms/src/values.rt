// A number of a file as a float of 32 bits, rounded once: its word. All go through `narrowed`, by whole numbers alone.
ghost use Rattle.std.specs.Prelude.{◌≡◌, true, false, ◌-◌, ◌*◌, ◌/◌, ◌^◌, ◌≤◌, ◌<◌};
ghost use Rattle.std.specs.Float.{binary32, binary64};
ghost use Rattle.std.specs.Float.Ieee.{round, of_bits, to_bits, of_fields};
ghost use Rattle.wave_forms.specs.Values.{whole_of, narrow_of, number_word};
ghost use Rattle.wave_forms.specs.Reader.{known_form};

// The pattern of m * 2^x / 2^1074. In the smallest floats of 32 bits, 2^-149 each, m has its top digit at `end` - 925:
// what is above 24 digits is dropped. m is moved up until it has 64 digits, so that what is kept of it is a shift.
// A carry goes into the exponent, and what is too large for any float is an infinity.
fn narrowed(m: u64, x: u32) -> u32
    requires { x < 2 ^ 11 }
    ensures value { result ≡ to_bits binary32 (round binary32 false (m * 2 ^ x) (2 ^ 1074)) }
    ensures upper_bound { result < 2 ^ 31 }
{
    if m == 0 {
        return 0;
    }
    let zeros = u64::leading_zeros(m);
    let end = x + 64 - zeros;
    let exponent = end.saturating_sub(949);
    let digits = binary32::shifted(m << zeros, 989 + exponent - end);
    let pattern = exponent as u64 * 0x80_0000 + digits;
    if pattern < 0x7f80_0000 {
        pattern as u32
    } else {
        0x7f80_0000
    }
}

// A whole number in two's complement, over 2^(bits - 1).
fn whole_word(bits: u32, n: u64) -> u32
    requires { (0 < bits) × (bits ≤ 32) × (n < 2 ^ bits) }
    ensures { result ≡ to_bits binary32 (whole_of bits n) }
{
    let half: u64 = 1 << (bits - 1);
    if n < half {
        narrowed(n, 1075 - bits)
    } else {
        0x8000_0000 + narrowed(2 * half - n, 1075 - bits)
    }
}

// A float of 64 bits that isn't below 0, by the fields of its pattern. It is so many times 2^-1074.
fn size_word(field: u32, digits: u64) -> u32
    requires { (field < 2048) × (digits < 2 ^ 52) × (field ≡ 2047 → digits ≡ 0) }
    ensures value { result ≡ to_bits binary32 (narrow_of (of_fields binary64 false field digits)) }
    ensures upper_bound { result < 2 ^ 31 }
{
    if field == 2047 {
        0x7f80_0000
    } else if field == 0 {
        narrowed(digits, 0)
    } else {
        narrowed(0x10_0000_0000_0000 + digits, field - 1)
    }
}

// A float of 64 bits, by its pattern.
fn double_word(n: u64) -> u32
    ensures { result ≡ to_bits binary32 (narrow_of (of_bits binary64 n)) }
{
    let rest = n % 0x8000_0000_0000_0000;
    if 0x7ff0_0000_0000_0000 < rest {
        return 0x7fc0_0000;
    }
    let size = size_word((rest / 0x10_0000_0000_0000) as u32, n % 0x10_0000_0000_0000);
    if n < 0x8000_0000_0000_0000 {
        size
    } else {
        0x8000_0000 + size
    }
}

pub fn word_of(tag: u32, bits: u32, n: u64) -> u32
    requires bits_value { known_form tag bits ≡ true }
    requires n_bound { n < 256 ^ (bits / 8) }
    ensures { result ≡ number_word tag bits n }
{
    if tag == 1 {
        whole_word(bits, n)
    } else if bits == 64 {
        double_word(n)
    } else {
        n as u32
    }
}
