// Recordings out and in as WAVE files: a file is written to and read from, and pieces are put into it.
ghost use Rattle.std.specs.Prelude.{◌≡◌, ◌≤◌};

use crate::run::Run;
use oracle_lines::field::{Record, u32_at};
use refusals::Refusal;

impl Run {
    // Kind 23: how many bytes at 1, 56 at most, their place in the file at 4, 968 at most, the bytes from 8 on.
    pub fn piece(&mut self, fields: &Record)
        ensures { self.new.out ≡ self.old.out }
    {
        let from = (u32_at(fields, 4) as usize).min(968);
        let n = (fields[1] as usize).min(56);
        self.file[from..from + n].copy_from_slice(&fields[8..8 + n]);
    }

    // The room for a file: the number at 12.
    pub fn file_room(&self, fields: &Record) -> usize
        ensures { result ≤ 1024 }
    {
        (u32_at(fields, 12) as usize).min(1024)
    }

    // Kind 24: the rate at 4, the room for the file at 12, the samples of memory lent at 16.
    pub fn write(&mut self, fields: &Record) -> Result<usize, Refusal>
        ensures { self.new.out ≡ self.old.out }
    {
        let n = self.file_room(fields);
        let m = self.lent(fields);
        let rate = u32_at(fields, 4);
        let file = &mut self.file[..];
        recordings::write_wave(self.sampler, rate, &self.memory[..m], &mut file[..n])
    }

    // Kind 25: the file as long as it says itself, or where the byte at 1 is 0 as the number at 12 says; the samples of
    // memory lent at 16.
    pub fn read(&mut self, fields: &Record) -> Result<u32, Refusal>
        ensures { self.new.out ≡ self.old.out }
    {
        let n = self.file_length(fields);
        let m = self.lent(fields);
        let memory = &mut self.memory[..];
        let a = recordings::read_wave(self.sampler, &self.file[..n], &mut memory[..m]);
        self.sampler = a.sampler;
        a.read
    }

    pub fn file_length(&self, fields: &Record) -> usize
        ensures { result ≤ 1024 }
    {
        if fields[1] == 0 {
            return self.file_room(fields);
        }
        let said = self.file[4] as usize + 256 * self.file[5] as usize;
        (8 + said).min(1024)
    }
}

// A number that is made of the first 2,048 words of a memory, in their order.
pub fn mixed(memory: &[u32]) -> u32 {
    memory.iter().take(2048).fold(0u32, |x, word| {
        x.wrapping_mul(1664525).wrapping_add(*word)
    })
}
