// The recordings, as lines.
ghost use Rattle.std.specs.Prelude.{◌≤◌, length, max};

use crate::run::Run;
use channel::Channel;
use phrases::Phrase;

impl Run {
    // For each channel in use a line for each of its phrases that has samples.
    pub fn put_recordings(&mut self, rt: &impl Print)
        ensures { length self.new.out ≤ max (length self.old.out) 32777 }
    {
        let s = self.sampler;
        let capacity = s.capacity;
        if s.count > 0 {
            self.put_channel(rt, &s.channels[0], 0);
        }
        if s.count > 1 {
            self.put_channel(rt, &s.channels[1], capacity);
        }
    }

    // Those of a channel whose part of the memory begins at a place.
    fn put_channel(&mut self, rt: &impl Print, c: &Channel, part: usize)
        ensures { length self.new.out ≤ max (length self.old.out) 32777 }
    {
        for k in 0..8 {
            self.put_phrase(rt, k, c.phrase_at(k), part);
        }
    }

    // The number k, and its samples, as far as the memory goes.
    fn put_phrase(&mut self, rt: &impl Print, k: u8, p: Phrase, part: usize)
        ensures { length self.new.out ≤ max (length self.old.out) 32777 }
    {
        if p.is_empty() {
            return;
        }
        self.out.spill(rt);
        self.out.tag(b'M');
        self.out.put::<1>(k as u64);
        let start = part.wrapping_add(p.start);
        for word in self.memory.iter().skip(start).take(p.length) {
            self.out.spill(rt);
            self.out.put_u32(*word);
        }
        self.out.end()
    }
}
