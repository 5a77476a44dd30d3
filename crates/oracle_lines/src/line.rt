// Lines of answers: words with a space behind each, of which the line's end takes the last. A word is one number in
// upper-case hexadecimal digits, or several with a colon between them.
ghost use Rattle.std.specs.Prelude.{◌≡◌, ◌+◌, ◌-◌, ◌<◌, ◌≤◌, [], length, min};

use std::marker::Model;

// The lines that wait to be written: as many of the bytes as the length says. What is past the room is cut; no program
// comes there, as each writes what waits before the rest is too short for a record's answer. The bytes past the length
// are 0: so what a clause sees of a text gives its fields back, which `Copy` asks for.
#[derive(Clone, Copy)]
pub struct Text {
    bytes: [u8; 65536],
    length: usize,
}

// A clause sees the bytes that wait.
impl Model for Text {
    ghost use Rattle.std.specs.Prelude.{◌≡◌, ◌-◌, ◌≤◌, ◌++◌, ℕ, List, length as long, take, drop, replicate};
    ghost use Rattle.std.proofs.Common.{arith, ap, sym, ◌∙◌, length-take-le, take-append-drop};

    ghost Value = { List ℕ };

    ghost view = { λ t. take t.length t.bytes };

    ghost invariant = { λ t. (t.length ≤ 65536) × (long t.bytes ≡ 65536)
        × (drop t.length t.bytes ≡ replicate (65536 - t.length) 0) };

    ghost inverse = { λ v. record { bytes = v ++ replicate (65536 - long v) 0; length = long v } };

    ghost inverse_ok = { λ t h i.
        let same : long (take t.length t.bytes) ≡ t.length = length-take-le t.length t.bytes (omega (arith, h.0, h.1)) in
        record {
          bytes = (ap (λ n. take t.length t.bytes ++ replicate (65536 - n) 0) same
              ∙ ap (λ rest. take t.length t.bytes ++ rest) (sym h.2) ∙ take-append-drop t.length t.bytes) i;
          length = same i;
        } };
}

impl Text {
    pub fn new() -> Self
        ensures { result ≡ [] }
    {
        Self {
            bytes: [0; 65536],
            length: 0,
        }
    }

    // How many bytes wait.
    pub fn len(&self) -> usize
        ensures value { result ≡ length self.now }
        ensures at_most { result ≤ 65536 }
    {
        self.length
    }

    // As many of the bytes as there is room for.
    fn add(&mut self, bytes: &[u8])
        ensures { length self.new ≡ min (length self.old + length bytes.now) 65536 }
    {
        let n = bytes.len().min(65536 - self.length);
        self.bytes[self.length..self.length + n].copy_from_slice(&bytes[..n]);
        self.length += n;
    }

    // A letter as a word.
    pub fn tag(&mut self, letter: u8)
        ensures { length self.new ≡ min (length self.old + 2) 65536 }
    {
        self.add(&[letter, b' '])
    }

    // The last N digits of n, and the byte `after` them: where they stand, if there is room. (Tried by `{:X}`: three times
    // as slow, and by an array that is always copied: up to twice. The edit digit_of_16 is of `digit`.)
    fn digits<const N: usize>(&mut self, n: u64, after: u8)
        requires { N < 65536 }
        ensures { length self.new ≡ min (length self.old + N + 1) 65536 }
    {
        let at = self.length;
        if N < 65536 - at {
            lay(&mut self.bytes[at..at + N], n);
            self.bytes[at + N] = after;
            self.length = at + N + 1;
        } else {
            let mut digits = [b'0'; N];
            lay(&mut digits, n);
            self.add(&digits);
            self.add(&[after]);
        }
    }

    // The last number of a word.
    pub fn put<const N: usize>(&mut self, n: u64)
        requires { N < 65536 }
        ensures { length self.new ≡ min (length self.old + N + 1) 65536 }
    {
        self.digits::<N>(n, b' ')
    }

    // A number of a word that goes on.
    pub fn begin<const N: usize>(&mut self, n: u64)
        requires { N < 65536 }
        ensures { length self.new ≡ min (length self.old + N + 1) 65536 }
    {
        self.digits::<N>(n, b':')
    }

    pub fn put_u8(&mut self, n: u8)
        ensures { length self.new ≡ min (length self.old + 3) 65536 }
    {
        self.put::<2>(n as u64)
    }

    pub fn put_u32(&mut self, n: u32)
        ensures { length self.new ≡ min (length self.old + 9) 65536 }
    {
        self.put::<8>(n as u64)
    }

    pub fn put_u64(&mut self, n: u64)
        ensures { length self.new ≡ min (length self.old + 17) 65536 }
    {
        self.put::<16>(n)
    }

    pub fn put_usize(&mut self, n: usize)
        ensures { length self.new ≡ min (length self.old + 17) 65536 }
    {
        self.put::<16>(n as u64)
    }

    pub fn put_f32(&mut self, x: f32)
        ensures { length self.new ≡ min (length self.old + 9) 65536 }
    {
        self.put_u32(binary32::to_bits(x))
    }

    pub fn begin_f32(&mut self, x: f32)
        ensures { length self.new ≡ min (length self.old + 9) 65536 }
    {
        self.begin::<8>(binary32::to_bits(x) as u64)
    }

    pub fn put_bool(&mut self, b: bool)
        ensures { length self.new ≡ min (length self.old + 2) 65536 }
    {
        self.put::<1>(b as u64)
    }

    // The line's end takes the place of its last space, where there is one.
    pub fn end(&mut self)
        ensures { length self.new ≡ length self.old - 1 + 1 }
    {
        if self.length > 0 {
            self.bytes[self.length - 1] = b'\n';
        } else {
            self.add(b"\n");
        }
    }

    // Writes what waits once it is long.
    pub fn spill(&mut self, rt: &impl Print)
        ensures bound { length self.new ≤ 32768 }
        ensures no_longer { length self.new ≤ length self.old }
    {
        if self.length > 32768 {
            self.write(rt);
        }
    }

    // Writes what waits to standard output. Whether that could be done.
    pub fn write(&mut self, rt: &impl Print) -> bool
        ensures { self.new ≡ [] }
    {
        let written = rt.write_all(&self.bytes[..self.length]).is_ok();
        self.bytes[..self.length].fill(0);
        self.length = 0;
        written
    }
}

// As many of the last digits of n as there are places.
fn lay(places: &mut [u8], n: u64)
    ensures { length places.new ≡ length places.old }
{
    let mut rest = n;
    for place in places.iter_mut().rev() {
        *place = digit(rest % 16);
        rest /= 16;
    }
}

fn digit(d: u64) -> u8
    requires { d < 16 }
{
    if d < 10 { 48 + d as u8 } else { 55 + d as u8 }
}
