// What a run holds between two records, and the text of what a record answers and leaves.
ghost use Rattle.std.specs.Prelude.{◌≡◌, ◌+◌, ◌*◌, ◌≤◌, [], length, min};

use crate::calls::Heard;
use crate::waves::mixed;
use common_types::{InitParams, Params};
use oracle_lines::field::{Record, u32_at};
use oracle_lines::line::Text;
use oracle_show::record::put_sampler;
use oracle_show::replies::{put_bytes, put_number, put_written};
use refusals::{Refusal, code};
use sampler::{Ran, Sampler};

// The sampler, and the parameters of its calls; the memory and the file that are lent to them; and the lines that wait
// to be written.
#[derive(Clone, Copy)]
pub struct Run {
    pub sampler: Sampler,
    pub params: Params,
    pub memory: [u32; 65536],
    pub file: [u8; 1024],
    pub out: Text,
}

impl Run {
    // No sampler is set up yet, and every call is refused.
    pub fn new() -> Self
        ensures { result.out ≡ [] }
    {
        Self {
            sampler: Sampler::new(0, InitParams::default(), &[]).sampler,
            params: Params::default(),
            memory: [0; 65536],
            file: [0; 1024],
            out: Text::new(),
        }
    }

    // How many samples of memory are lent: the number at 16, or all.
    pub fn lent(&self, fields: &Record) -> usize
        ensures { result ≤ 65536 }
    {
        (u32_at(fields, 16) as usize).min(65536)
    }

    // The count of channels and the capacity, which end the line, and what is in use of the record.
    fn put_record(&mut self)
        ensures { length self.new.out ≤ length self.old.out + 14000 }
    {
        let s = &self.sampler;
        self.out.put::<1>((s.count % 16) as u64);
        self.out.put_u32((s.capacity % 0x1_0000_0000) as u32);
        self.out.end();
        put_sampler(&mut self.out, s)
    }

    pub fn answered(&mut self, kind: u8, number: u8)
        ensures { length self.new.out ≤ length self.old.out + 14006 }
    {
        put_number(&mut self.out, kind, number);
        self.put_record()
    }

    pub fn heard(&mut self, kind: u8, h: Heard)
        ensures { length self.new.out ≤ length self.old.out + 14036 }
    {
        put_number(&mut self.out, kind, h.number);
        self.out.put_f32(h.entries[0]);
        self.out.put_f32(h.entries[1]);
        self.out.put_f32(h.entries[2]);
        self.out.put_u8(h.moved);
        self.put_record()
    }

    // The frames that are done, and every entry.
    pub fn ran(&mut self, kind: u8, ran: Ran, entries: &[f32])
        ensures { length self.new.out ≤ length self.old.out + 14015 + 9 * length entries.now }
    {
        put_number(&mut self.out, kind, code(ran.done));
        self.out.put_u32((ran.frames % 0x1_0000_0000) as u32);
        for entry in entries {
            self.out.put_f32(*entry);
        }
        self.put_record()
    }

    // How many bytes were written, and the file's room.
    pub fn wrote(&mut self, kind: u8, a: Result<usize, Refusal>)
        ensures { length self.new.out ≤ length self.old.out + 17095 }
    {
        put_written(&mut self.out, kind, a);
        put_bytes(&mut self.out, &self.file);
        self.put_record()
    }

    // The file's rate, and a number that is made of the memory's words.
    pub fn took(&mut self, kind: u8, read: Result<u32, Refusal>)
        ensures { length self.new.out ≤ length self.old.out + 14024 }
    {
        let (number, rate) = match read {
            Ok(rate) => (0, rate),
            Err(refusal) => (refusal.number(), 0),
        };
        put_number(&mut self.out, kind, number);
        self.out.put_u32(rate);
        self.out.put_u32(mixed(&self.memory));
        self.put_record()
    }

    // A number that is made of the memory's words.
    pub fn gathered(&mut self, kind: u8, number: u8)
        ensures { length self.new.out ≤ length self.old.out + 14015 }
    {
        put_number(&mut self.out, kind, number);
        self.out.put_u32(mixed(&self.memory));
        self.put_record()
    }

    // A line with no more than the kind, for a record that leaves the sampler as it is.
    pub fn told(&mut self, kind: u8)
        ensures { length self.new.out ≡ min (length self.old.out + 6) 65536 }
    {
        put_number(&mut self.out, kind, 0);
        self.out.end()
    }

    // A bad record, which ends the listing.
    pub fn bad(&mut self)
        ensures { length self.new.out ≡ min (length self.old.out + 2) 65536 }
    {
        self.out.tag(b'X');
        self.out.end()
    }
}
