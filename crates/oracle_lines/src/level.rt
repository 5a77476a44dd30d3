// A volume as a word: its kind, 0 for a steady level and 1 for a ramp, the ramp's two times, and its two floats. A
// steady level stands in the place of the first.
ghost use Rattle.std.specs.Prelude.{◌≡◌, ◌+◌, length, min};

use crate::line::Text;
use volume::Volume;

impl Text {
    pub fn put_volume(&mut self, v: Volume)
        ensures { length self.new ≡ min (length self.old + 54) 65536 }
    {
        match v {
            Volume::Static(x) => self.put_ramp(0, 0, 0, x, 0.0),
            Volume::Linear {
                time_start,
                time_end,
                value_start,
                value_end,
            } => self.put_ramp(1, time_start, time_end, value_start, value_end),
        }
    }

    fn put_ramp(&mut self, kind: u64, start: usize, stop: usize, from: f32, till: f32)
        ensures { length self.new ≡ min (length self.old + 54) 65536 }
    {
        self.begin::<1>(kind);
        self.begin::<16>(start as u64);
        self.begin::<16>(stop as u64);
        self.begin_f32(from);
        self.put_f32(till)
    }
}
