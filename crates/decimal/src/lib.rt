// A line of text of at most 64 bytes, built from its left end by value, with numbers in decimal. Each public function
// equals a definition in specs/, for every value of its arguments.
#![tactic(auto)]

mod writing;

ghost use Rattle.std.specs.Prelude.{◌≡◌, [], ◌+◌, leb};
ghost use Rattle.decimal.specs.Decimal.{decimal};
ghost use Rattle.decimal.specs.Lines.{line_of, with_of, text_of, fits_in, printed_of};

use writing::{decimal_length, write_bytes, write_decimal};

// The text is the first `length` of the bytes; the engine has no heap, so they stand in the line.
#[derive(Clone, Copy)]
pub struct Line {
    pub bytes: [u8; 64],
    pub length: usize,
}

fn has_room(at: usize, size: usize) -> bool
    ensures { result ≡ leb (at + size) 64 }
{
    at <= 64 && size <= 64 - at
}

impl Line {
    pub fn new() -> Line
        ensures { result ≡ line_of [] }
    {
        Line {
            bytes: [0; 64],
            length: 0,
        }
    }

    // The same line with a text at its end. One that doesn't fit is left out.
    pub fn with(self, text: &[u8]) -> Line
        ensures { result ≡ with_of self text.now }
    {
        if has_room(self.length, text.len()) {
            let mut bytes = self.bytes;
            let length = write_bytes(&mut bytes, self.length, text);
            Line { bytes, length }
        } else {
            self
        }
    }

    pub fn with_decimal(self, n: u64) -> Line
        ensures { result ≡ with_of self (decimal n) }
    {
        if has_room(self.length, decimal_length(n)) {
            let mut bytes = self.bytes;
            let length = write_decimal(&mut bytes, self.length, n);
            Line { bytes, length }
        } else {
            self
        }
    }

    #[tactic(auto, using(walks::proofs::Lists::Loops::take_most), unfolding(crate::specs::Lines::text_of))]
    pub fn text(&self) -> &[u8]
        ensures { result.now ≡ text_of self.now }
    {
        &self.bytes[..self.length.min(64)]
    }

    // Copies the text to the front of a lent list, where it fits, and says whether it did.
    pub fn print(self, lent: &mut [u8]) -> bool
        ensures value { result ≡ fits_in (text_of self) lent.old }
        ensures lent_after { lent.new ≡ printed_of (text_of self) lent.old }
    {
        let text = self.text();
        if lent.len() < text.len() {
            return false;
        }
        write_bytes(lent, 0, text);
        true
    }
}
