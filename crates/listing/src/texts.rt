// The lines that a listing prints.
ghost use Rattle.std.specs.Prelude.{◌≡◌, [], ◌∷◌, ◌%◌};
ghost use Rattle.decimal.specs.Decimal.{decimal};
ghost use Rattle.decimal.specs.Lines.{bytes, line_of, with_of};
ghost use Rattle.listing.specs.Lines.{
  hex_digit,
  hex_digits,
  output_text,
  space,
  newline,
  answer_line,
  frame_line,
  bad_line,
};

use decimal::Line;

fn hex_digit(n: u32) -> u8
    ensures { result ≡ hex_digit (n % 16) }
{
    let d = (n % 16) as u8;
    if d < 10 { 48 + d } else { 55 + d }
}

fn hex(n: u32) -> [u8; 8]
    ensures { result ≡ hex_digits 8 n }
{
    [
        hex_digit(n / 0x1000_0000),
        hex_digit(n / 0x100_0000),
        hex_digit(n / 0x10_0000),
        hex_digit(n / 0x1_0000),
        hex_digit(n / 0x1000),
        hex_digit(n / 0x100),
        hex_digit(n / 0x10),
        hex_digit(n),
    ]
}

// A space and an output.
pub fn with_output(line: Line, x: f32) -> Line
    ensures { result ≡ with_of (with_of line space) (output_text x) }
{
    let spaced = line.with(b" ");
    if x != x {
        return spaced.with(b"NAN");
    }
    let digits = hex(binary32::to_bits(x));
    spaced.with(&digits)
}

pub fn answer_line(kind: u8, number: u8) -> Line
    ensures { result ≡ line_of (answer_line kind number) }
{
    let kinded = Line::new().with(b"E ").with_decimal(kind as u64);
    kinded.with(b" ").with_decimal(number as u64).with(b"\n")
}

pub fn bad_line(offset: u64) -> Line
    ensures { result ≡ line_of (bad_line offset) }
{
    Line::new().with(b"X ").with_decimal(offset).with(b"\n")
}

fn begun(clock: usize, first: f32) -> Line
    ensures { result
        ≡ with_of (with_of (with_of (with_of (line_of []) (bytes "F ")) (decimal clock)) space) (output_text first) }
{
    let clocked = Line::new().with(b"F ").with_decimal(clock as u64);
    with_output(clocked, first)
}

fn counted(line: Line, count: usize) -> Line
    ensures { result ≡ with_of (with_of (with_of line space) (decimal count)) newline }
{
    line.with(b" ").with_decimal(count as u64).with(b"\n")
}

pub fn mono_line(clock: usize, output: f32, count: usize) -> Line
    ensures { result ≡ line_of (frame_line clock (output ∷ []) count) }
{
    counted(begun(clock, output), count)
}

pub fn stereo_line(clock: usize, first: f32, second: f32, count: usize) -> Line
    ensures { result ≡ line_of (frame_line clock (first ∷ second ∷ []) count) }
{
    let both = with_output(begun(clock, first), second);
    counted(both, count)
}
