// What the engine needs of binary32 beyond the language's own operators: conversions, rounded shifts, floor, minimum,
// maximum, size, the crossing test, bit patterns, the square root and the remainder, quick and whole. Each public
// function takes every value of its arguments, and equals a definition in specs/Leaves.antt, or the kit's `rem`; the
// quick remainder may be left undone.
#![tactic(auto)]

ghost use Rattle.std.specs.Prelude.{◌≡◌, ◌+◌, ◌*◌, ◌%◌, ◌^◌, ◌<◌, ◌≤◌, false, T, from_bits};
ghost use Rattle.std.specs.Float.{nan, binary32};
ghost use Rattle.std.specs.Float.Ieee.{rem, lt, le, round};
ghost use Rattle.std.specs.Float.Ieee.Nearest.{closest};
ghost use Rattle.binary32.specs.Leaves.{
  as_float,
  shifted_of,
  as_whole,
  floor_of,
  min_of,
  max_of,
  abs_of,
  crossing_of,
  bits_of,
  float_of,
  isqrt,
  root_of,
  OrLess,
};

// `n as f32`. A number above 2^24 keeps the 24 digits from its top one on, and drops those below.
pub fn u64_to_f32(n: u64) -> f32
    ensures { result ≡ as_float n }
{
    if 0x100_0000 < n {
        rounded(n, 40 - u64::leading_zeros(n))
    } else {
        n as f32
    }
}

pub fn usize_to_f32(count: usize) -> f32
    ensures { result ≡ as_float count }
{
    u64_to_f32(count as u64)
}

pub fn u32_to_f32(n: u32) -> f32
    ensures { result ≡ as_float n }
{
    u64_to_f32(n as u64)
}

// The multiple of 2^drop that is nearest to n, as a float. What `nearest` answers is at most 2^24, to which a carry may
// lead: the product is exact.
fn rounded(n: u64, drop: u32) -> f32
    requires { (0 < drop) × (drop < 64) × (n < 2 ^ (24 + drop)) }
    ensures { result ≡ as_float (closest n (2 ^ drop) * 2 ^ drop) }
{
    (nearest(n, 1 << drop) as f32) * f32::from_bits((drop + 127) << 23)
}

// n / unit as the nearest whole number, a tie to the even one.
fn nearest(n: u64, unit: u64) -> u64
    requires { (1 < unit) × (unit ≤ 2 ^ 63) }
    ensures { result ≡ closest n unit }
{
    let top = n / unit;
    let twice = n % unit * 2;
    if twice < unit {
        top
    } else if twice == unit {
        if top % 2 == 0 { top } else { top + 1 }
    } else {
        top + 1
    }
}

// n / 2^drop as the nearest whole number, a tie to the even one.
pub fn shifted(n: u64, drop: u32) -> u64
    ensures { result ≡ shifted_of n drop }
{
    if drop == 0 {
        return n;
    }
    if drop < 64 {
        return nearest(n, 1 << drop);
    }
    if (drop == 64) & (0x8000_0000_0000_0000 < n) {
        return 1;
    }
    0
}

// `x as usize`.
pub fn f32_to_usize(x: f32) -> usize
    ensures { result ≡ as_whole 64 x }
{
    if x < 8388608.0 {
        if x >= 0.0 { low_whole(x) } else { 0 }
    } else if x < 18446744073709551616.0 {
        std::num::truncating_f32_to_u64(x) as usize
    } else if x != x {
        0
    } else {
        usize::MAX
    }
}

// The sum with 2^28 in f64 has 24 digits of fraction, in which no float below 2^23 is rounded up to a whole number.
fn low_whole(x: f32) -> usize
    requires from_zero { T (le (from_bits binary32 0) x) }
    requires below_top { T (lt x (from_bits binary32 0x4b00_0000)) }
    ensures { result ≡ as_whole 64 x }
{
    (f64::to_bits((x as f64) + 268435456.0) / 0x100_0000 % 0x1000_0000) as usize
}

// `x as u32`.
pub fn f32_to_u32(x: f32) -> u32
    ensures { result ≡ as_whole 32 x }
{
    let n = f32_to_usize(x);
    if n < 0xffff_ffff { n as u32 } else { u32::MAX }
}

// f32::floor.
pub fn floor(x: f32) -> f32
    ensures { result ≡ floor_of x }
{
    if x > 0.0 {
        if x < 8388608.0 { whole_part(x) } else { x }
    } else if x < 0.0 {
        if x > -8388608.0 {
            let below = whole_part(-x);
            if below < -x { -(below + 1.0) } else { -below }
        } else {
            x
        }
    } else {
        x
    }
}

// A float of 2^23 or more has no room for a fraction: adding 2^23 rounds x to a whole number, at most one too high.
fn whole_part(x: f32) -> f32
    requires above_zero { T (lt (from_bits binary32 0) x) }
    requires below_top { T (lt x (from_bits binary32 0x4b00_0000)) }
    ensures { result ≡ floor_of x }
{
    let near = (x + 8388608.0) - 8388608.0;
    if x < near { near - 1.0 } else { near }
}

// `x % y` where it takes no more than a product, else a number below 0: x - q * y for a whole number q near x / y.
// Whatever q is, that is x % y where it lies from 0 to below y. From 1.5 * 2^52 on an f64 has no room for a fraction,
// so that q is whole; below 2^23 it has so few digits that q * y is exact; and below 0 it would leave y or more.
pub fn rem_or_less(x: f32, y: f32) -> f32
    ensures { OrLess (rem binary32 x y) result }
{
    if (x >= 0.0) & (y > 0.0) {
        let wide = x as f64;
        let by = y as f64;
        let near = wide * (1.0 / by) - 0.49999999 + 6755399441055744.0;
        let left = wide - (near - 6755399441055744.0) * by;
        if (near < 6755399449444352.0) & (left >= 0.0) & (left < by) {
            left as f32
        } else {
            -1.0
        }
    } else {
        -1.0
    }
}

// `x % y`, by the mantissas as whole numbers. The sign of y says nothing, and that of x is the remainder's.
pub fn remainder(x: f32, y: f32) -> f32
    ensures { result ≡ rem binary32 x y }
{
    let by = abs(y);
    if by > 0.0 {
        if x > 0.0 {
            rest(x, by)
        } else if x < 0.0 {
            -rest(-x, by)
        } else {
            x
        }
    } else {
        not_a_number()
    }
}

// `x % y` of two floats above 0, of which either may be infinite.
fn rest(x: f32, y: f32) -> f32
    requires dividend { T (lt (from_bits binary32 0) x) }
    requires divisor { T (lt (from_bits binary32 0) y) }
    ensures { result ≡ rem binary32 x y }
{
    let a = f32::to_bits(x);
    let b = f32::to_bits(y);
    if a < 0x7f80_0000 {
        if b < 0x7f80_0000 { rest_of(a, b) } else { x }
    } else {
        not_a_number()
    }
}

// The same of two finite floats by their patterns. A float with fewer places at its end than the divisor is smaller.
fn rest_of(a: u32, b: u32) -> f32
    requires { (a < 0x7f80_0000) × (0 < b) × (b < 0x7f80_0000) }
    ensures { result ≡ rem binary32 (float_of a) (float_of b) }
{
    let from = places(a);
    let to = places(b);
    if from < to {
        f32::from_bits(a)
    } else {
        let by = (b - to * 0x80_0000) as u64;
        (scaled_rest((a - from * 0x80_0000) as u64, from - to, by) as f32) * unit(to)
    }
}

// How many places follow the digits of a float: it is m * 2^places of the smallest floats, and its pattern is
// places * 2^23 + m. From 2^-126 on, the exponent's field stands for a leading digit too.
fn places(pattern: u32) -> u32
    requires { pattern < 0x7f80_0000 }
    ensures { (result * 2 ^ 23 ≤ pattern) × (pattern < result * 2 ^ 23 + 2 ^ 24)
        × (0 < result → result * 2 ^ 23 + 2 ^ 23 ≤ pattern) × (result < 254) }
{
    if pattern < 0x80_0000 {
        0
    } else {
        pattern / 0x80_0000 - 1
    }
}

// 2^places of the smallest floats.
fn unit(places: u32) -> f32
    requires { places < 254 }
    ensures { result ≡ round binary32 false (2 ^ places) (2 ^ 149) }
{
    if places < 23 {
        f32::from_bits(1 << places)
    } else {
        f32::from_bits((places - 22) * 0x80_0000)
    }
}

// m * 2^places % by, of 32 places at a time: no more fit beside the 24 digits of what is left.
fn scaled_rest(m: u64, places: u32, by: u64) -> u64
    requires { (0 < by) × (by < 2 ^ 24) }
    ensures { result ≡ m * 2 ^ places % by }
{
    let mut left = m % by;
    let mut more = places;
    while more >= 32 {
        left = (left << 32) % by;
        more = more - 32;
    }
    (left << more) % by
}

// f32::min.
pub fn min(a: f32, b: f32) -> f32
    ensures { result ≡ min_of a b }
{
    if a != a {
        b
    } else if b < a {
        b
    } else {
        a
    }
}

// f32::max.
pub fn max(a: f32, b: f32) -> f32
    ensures { result ≡ max_of a b }
{
    if a < b {
        b
    } else if a != a {
        b
    } else {
        a
    }
}

// f32::abs.
pub fn abs(x: f32) -> f32
    ensures { result ≡ abs_of x }
{
    if x < 0.0 {
        -x
    } else if x == 0.0 {
        0.0
    } else {
        x
    }
}

// f32::to_bits, with one pattern for NaN.
pub fn to_bits(x: f32) -> u32
    ensures { result ≡ bits_of x }
{
    if x != x { 0x7fc0_0000 } else { f32::to_bits(x) }
}

// f32::from_bits.
pub fn from_bits(pattern: u32) -> f32
    ensures { result ≡ float_of pattern }
{
    if pattern % 0x8000_0000 > 0x7f80_0000 {
        not_a_number()
    } else {
        f32::from_bits(pattern)
    }
}

fn not_a_number() -> f32
    ensures { result ≡ nan }
{
    0.0 / 0.0
}

// Whether the sound crosses zero from `last` to `value`. It is asked for every voice at every sample, of values that no
// one foresees: so it has no branch, which a processor would take wrongly half of the time, but for NaN, which is rare.
pub fn crossing(value: f32, last: f32) -> bool
    ensures { result ≡ crossing_of value last }
{
    if (value != value) | (last != last) {
        return true;
    }
    (f32::to_bits(value) / 0x8000_0000 != f32::to_bits(last) / 0x8000_0000) | (value == 0.0)
}

// f32::sqrt.
pub fn sqrt(x: f32) -> f32
    ensures { result ≡ root_of x }
{
    if x > 0.0 {
        let pattern = f32::to_bits(x);
        if pattern < 0x7f80_0000 {
            root_of(pattern)
        } else {
            x
        }
    } else if x < 0.0 {
        not_a_number()
    } else {
        x
    }
}

// The root of a finite float above 0, by its pattern. From 2^-126 on, the exponent's field stands for a leading digit
// too.
fn root_of(pattern: u32) -> f32
    requires { (0 < pattern) × (pattern < 0x7f80_0000) }
    ensures { result ≡ root_of (float_of pattern) }
{
    if pattern < 0x80_0000 {
        scaled_root(pattern as u64, 0)
    } else {
        scaled_root(
            (pattern % 0x80_0000 + 0x80_0000) as u64,
            pattern / 0x80_0000 - 1,
        )
    }
}

// The root of m * 2^drop, in the smallest floats. With m moved up until it has 49 or 50 digits and a root that is moved
// by a whole number of places, the whole part of the root has 25 digits, one more than a float: it is rounded by that
// one, and a carry goes into the exponent.
fn scaled_root(m: u64, drop: u32) -> f32
    requires { (0 < m) × (m < 2 ^ 24) × (drop < 254) }
    ensures { result ≡ round binary32 false (isqrt (m * 2 ^ (drop + 149))) (2 ^ 149) }
{
    let least = u64::leading_zeros(m) - 15;
    let shift = least + (least + drop + 1) % 2;
    let kept = (whole_root(m << shift) + 1) / 2;
    f32::from_bits((drop + 151 - shift) / 2 * 0x80_0000 + kept as u32)
}

// The whole part of the root, by Newton's steps from above. The first goes from a number in the middle of the roots.
fn whole_root(n: u64) -> u64
    requires { n < 2 ^ 50 }
    ensures { result ≡ isqrt n }
{
    let mut r = (23726566 + n / 23726566) / 2;
    while n < r * r {
        r = (r + n / r) / 2;
    }
    r
}
