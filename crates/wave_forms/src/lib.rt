// WAVE files of other forms turned into 10/12's: whole numbers of 16, 24 or 32 bits, floats of 32 or 64, under a `fmt `
// of 16, 18 or 40 bytes. It takes every list of bytes, and each function equals a definition in specs/.
#![tactic(auto)]

mod formats;
mod numbers;
mod values;

ghost use Rattle.std.specs.Prelude.{◌≡◌, ◌+◌, ◌*◌, ◌/◌, ◌^◌, ◌≤◌, ◌<◌, true, length};
ghost use Rattle.wave_forms.specs.Reader.{counted_judged, judged_at, file_judged};
ghost use Rattle.wave_forms.specs.Turns.{turn_answer, output_after};

use formats::{Form, form_at, good_form};
use numbers::put_words;
use wave::chunks::Places;
use wave::fields::four_at;

// A file of a known form: `count` numbers, `samples` for each channel, frame by frame, stand from `first` on.
#[derive(Clone, Copy)]
struct Source {
    pub form: Form,
    pub samples: u32,
    pub count: usize,
    pub first: usize,
}

// 0 and how many bytes were written; 8 and how many there have to be room for; 17 and 0 for a file of no known form.
// No Result: the C interface hands out both, as they are (host::files::turn_wave).
#[derive(Clone, Copy)]
pub struct Turned {
    pub length: usize,
    pub number: u8,
}

// So many bytes of data in a good form, from a place on.
fn counted(o: Form, first: usize, size: u32) -> Option<Source>
    requires { (0 < o.block) × (8 ≤ o.bits) }
    ensures { result ≡ counted_judged o first size }
{
    if size % o.block != 0 {
        return None;
    }
    let count = size / (o.bits / 8);
    if 0x3fff_fff3 < count {
        return None;
    }
    Some(Source {
        form: o,
        samples: size / o.block,
        count: count as usize,
        first,
    })
}

fn judged_at(file: &[u8], p: Places) -> Option<Source>
    requires { (p.format < 2 ^ 63) × (p.words < 2 ^ 63) }
    ensures { result ≡ judged_at file.now p }
{
    if p.words == 0 {
        return None;
    }
    let o = form_at(file, p.format);
    if good_form(o) {
        counted(o, p.words + 8, four_at(file, p.words + 4))
    } else {
        None
    }
}

// Whether a file is of a known form, and what it holds.
fn judge(file: &[u8]) -> Option<Source>
    ensures { result ≡ file_judged file.now }
{
    if !wave::good_riff(file) {
        return None;
    }
    judged_at(file, wave::chunks::walk(file)?)
}

// Writes the file of 10/12's form that holds the same recording, each number rounded once.
pub fn turn(file: &[u8], out: &mut [u8]) -> Turned
    ensures value { result ≡ turn_answer file.now (length out.old) }
    ensures out_after { out.new ≡ output_after file.now out.old }
{
    match judge(file) {
        None => Turned {
            length: 0,
            number: 17,
        },
        Some(s) => {
            let length = 58 + 4 * s.count;
            if out.len() < length {
                return Turned { length, number: 8 };
            }
            let o = s.form;
            wave::put_head(out, o.rate, o.channels, s.samples);
            put_words(file, s, out);
            Turned { length, number: 0 }
        }
    }
}
