// The numbers of a file, one behind the other, as the words of another.
ghost use Rattle.std.specs.Prelude.{◌≡◌, true, ◌+◌, ◌*◌, ◌/◌, ◌^◌, ◌≤◌, ◌<◌, length};
ghost use Rattle.std.proofs.lemmas.List.Edits.{sets};
ghost use Rattle.wave.specs.Fields.{word_bytes};
ghost use Rattle.wave_forms.specs.Reader.{number_at, known_form, words_in};

use crate::Source;
use crate::values::word_of;
use octets::byte_at;

// The number of so many bytes at a place, the least significant first.
fn number_at(file: &[u8], at: usize, bytes: usize) -> u64
    requires { (at < 2 ^ 63 + 2 ^ 36) × (bytes ≤ 8) }
    ensures value { result ≡ number_at file.now bytes at }
    ensures upper_bound { result < 256 ^ bytes }
{
    let mut n: u64 = 0;
    for i in (0..bytes).rev() {
        n = n * 256 + byte_at(file, at + i) as u64;
    }
    n
}

// Writes the words of a file's numbers behind a header of 58 bytes.
pub fn put_words(file: &[u8], s: Source, out: &mut [u8])
    requires bits_value { known_form s.form.tag s.form.bits ≡ true }
    requires first_bound { (s.first < 2 ^ 63 + 8) × (s.count < 2 ^ 30) × (58 + 4 * s.count ≤ length out.old) }
    ensures { out.new ≡ sets out.old 58 (word_bytes (words_in file.now s)) }
{
    let o = s.form;
    let bytes = (o.bits / 8) as usize;
    for k in 0..s.count {
        let n = number_at(file, s.first + bytes * k, bytes);
        wave::put_word(out, 58 + 4 * k, word_of(o.tag, o.bits, n));
    }
}
