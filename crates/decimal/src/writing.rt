// Bytes and decimal numbers, written into a lent text from a place on. Each call returns the place after what it wrote.
ghost use Rattle.std.specs.Prelude.{◌≡◌, ◌+◌, ◌%◌, ◌≤◌, length};
ghost use Rattle.std.proofs.lemmas.List.Edits.{sets};
ghost use Rattle.decimal.specs.Decimal.{digit, decimal};

pub fn write_bytes(text: &mut [u8], at: usize, bytes: &[u8]) -> usize
    requires { at + length bytes.now ≤ length text.old }
    ensures value { result ≡ at + length bytes.now }
    ensures text_after { text.new ≡ sets text.old at bytes.now }
{
    let end = at + bytes.len();
    text[at..end].copy_from_slice(bytes);
    end
}

fn last_digit(n: u64) -> u8
    ensures { result ≡ digit (n % 10) }
{
    (48 + n % 10) as u8
}

pub fn decimal_length(n: u64) -> usize
    ensures { result ≡ length (decimal n) }
{
    n.max(1).ilog10() as usize + 1
}

// From the last digit to the first.
pub fn write_decimal(text: &mut [u8], at: usize, n: u64) -> usize
    requires { at + length (decimal n) ≤ length text.old }
    ensures value { result ≡ at + length (decimal n) }
    ensures text_after { text.new ≡ sets text.old at (decimal n) }
{
    let end = at + decimal_length(n);
    // A `for` over the places is no plainer: what is left of the number ends the loop.
    let mut place = end;
    let mut rest = n;
    while rest >= 10 {
        place -= 1;
        text[place] = last_digit(rest);
        rest /= 10;
    }
    text[at] = last_digit(rest);
    end
}
