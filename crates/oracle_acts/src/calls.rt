// What the records do to the sampler.
ghost use Rattle.std.specs.Prelude.{◌≡◌, ◌≤◌, [], ◌∷◌, replicate, false, pos};
ghost use Rattle.std.specs.Float.{fin};
ghost use Rattle.octets.specs.Octets.{byte_at};
ghost use Rattle.oracle_lines.specs.Fields.{f32_of};
ghost use Rattle.oracle_acts.specs.Entries.{entries_at_of};

use crate::run::Run;
use common_types::{InitParams, Note, Params};
use oracle_lines::field::{Record, f32_at, u32_at};
use refusals::code;
use sampler::{Answer, Ran, Sampler};

// What a sample or a frame answers, with the entries of the frame, of which a sample is the first, and how many voices
// moved up.
#[derive(Clone, Copy)]
pub struct Heard {
    pub entries: [f32; 3],
    pub number: u8,
    pub moved: u8,
}

impl Heard {
    // Of no frame.
    pub fn nothing() -> Self
        ensures entries { result.entries ≡ replicate 3 (fin false 0 (pos 0)) }
        ensures number { result.number ≡ 0 }
        ensures moved { result.moved ≡ 0 }
    {
        Self {
            entries: [0.0, 0.0, 0.0],
            number: 0,
            moved: 0,
        }
    }
}

// A note at 1, its channel at 2.
pub fn note_of(fields: &Record) -> Note
    ensures note { result.note ≡ byte_at fields.now 1 }
    ensures channel { result.channel ≡ byte_at fields.now 2 }
{
    Note::new(fields[1], fields[2])
}

// Kind 9: the entries at 4, 8 and 12.
pub fn entries_of(fields: &Record) -> [f32; 3]
    ensures { result ≡ f32_of fields.now 4 ∷ f32_of fields.now 8 ∷ f32_of fields.now 12 ∷ [] }
{
    [f32_at(fields, 4), f32_at(fields, 8), f32_at(fields, 12)]
}

// Kind 19: the entries of frame i are x, -x and x, where x is the float at 4, and in each further frame more by the float
// at 8.
pub fn entries_at(fields: &Record, i: u32) -> [f32; 3]
    ensures { result ≡ entries_at_of fields.now i }
{
    let x = f32_at(fields, 4) + binary32::u32_to_f32(i) * f32_at(fields, 8);
    [x, -x, x]
}

// How many entries a frame has: the number at 1.
pub fn entries_asked(fields: &Record) -> usize
    ensures { result ≤ 3 }
{
    (fields[1] as usize).min(3)
}

// How many entries a run has: the number at 12.
pub fn run_asked(fields: &Record) -> usize
    ensures { result ≤ 2048 }
{
    (u32_at(fields, 12) as usize).min(2048)
}

impl Run {
    // Goes on with the sampler of an answer, and answers its number.
    pub fn on(&mut self, a: Answer) -> u8
        ensures { self.new.out ≡ self.old.out }
    {
        self.sampler = a.sampler;
        code(a.done)
    }

    // Kind 0: auto pass-through at 1, the count of channels at 4, the samples of memory at 8. Memory, file and parameters
    // are as at the beginning.
    pub fn set_up(&mut self, fields: &Record) -> u8
        ensures { self.new.out ≡ self.old.out }
    {
        self.memory.fill(0);
        self.file.fill(0);
        self.params = Params::default();
        let n = (u32_at(fields, 8) as usize).min(65536);
        let init = InitParams {
            auto_passthru: fields[1] != 0,
        };
        let a = Sampler::new(u32_at(fields, 4) as usize, init, &self.memory[..n]);
        self.on(a)
    }

    // Kinds 2 to 7: the note at 1, its channel at 2, then floats from 4 on. Kinds 26 and 27: a phrase's number at 1.
    pub fn call(&mut self, fields: &Record) -> u8
        ensures { self.new.out ≡ self.old.out }
    {
        let s = self.sampler;
        let p = self.params;
        self.on(match fields[0] {
            2 => s.start_playing(f32_at(fields, 4), note_of(fields), f32_at(fields, 8), p),
            3 => s.stop_playing(note_of(fields), p),
            4 => s.set_note_speed(note_of(fields), f32_at(fields, 4)),
            5 => s.start_recording(),
            6 => s.stop_recording(),
            26 => s.choose_phrase(fields[1]),
            27 => s.delete_phrase(fields[1]),
            _ => s.reset(),
        })
    }

    // Kind 8: the input at 4, the channel at 8, the samples of memory lent at 16.
    pub fn sample(&mut self, fields: &Record) -> Heard
        ensures { self.new.out ≡ self.old.out }
    {
        let channel = u32_at(fields, 8) as usize;
        let n = self.lent(fields);
        let a = self.sampler.process_sample(
            channel,
            f32_at(fields, 4),
            self.params,
            &mut self.memory[..n],
        );
        self.sampler = a.sampler;
        Heard {
            entries: [a.output, 0.0, 0.0],
            number: code(a.done),
            moved: a.moved,
        }
    }

    // Kind 9: how many entries at 1, the samples of memory lent at 16.
    pub fn frame(&mut self, entries: [f32; 3], fields: &Record) -> Heard
        ensures { self.new.out ≡ self.old.out }
    {
        let mut frame = entries;
        let n = entries_asked(fields);
        let m = self.lent(fields);
        let a = self
            .sampler
            .process_frame(&mut frame[..n], self.params, &mut self.memory[..m]);
        self.sampler = a.sampler;
        Heard {
            entries: frame,
            number: code(a.done),
            moved: a.moved,
        }
    }

    // Kind 19: as many frames as the number at 12 says, of which the last is shown.
    pub fn frames(&mut self, fields: &Record) -> Heard
        ensures { self.new.out ≡ self.old.out }
    {
        let mut h = Heard::nothing();
        for i in 0..u32_at(fields, 12) {
            h = self.frame(entries_at(fields, i), fields);
        }
        h
    }

    // Kind 28: the samples of memory lent at 16.
    pub fn gather(&mut self, fields: &Record) -> u8
        ensures { self.new.out ≡ self.old.out }
    {
        let n = self.lent(fields);
        let a = self.sampler.gather(&mut self.memory[..n]);
        self.on(a)
    }

    // Kind 21: a run of frames on these entries, which are made from the seed at 4; the samples of memory lent at 16.
    pub fn frames_of(&mut self, fields: &Record, entries: &mut [f32]) -> Ran
        ensures { self.new.out ≡ self.old.out }
    {
        fill(entries, u32_at(fields, 4));
        let n = self.lent(fields);
        let a = self
            .sampler
            .process_frames(entries, self.params, &mut self.memory[..n]);
        self.sampler = a.sampler;
        a.ran
    }
}

// Entries from -1 to 1, each from the 24 high bits of a number that the one before it gives.
pub fn fill(entries: &mut [f32], seed: u32) {
    let mut x = seed;
    for entry in entries.iter_mut() {
        x = x.wrapping_mul(1664525).wrapping_add(1013904223);
        *entry = binary32::u32_to_f32(x / 256) * 0.00000011920929 - 1.0;
    }
}
