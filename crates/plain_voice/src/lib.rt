// A voice whose position is kept beside it as a whole number (request 9/12): its clip is of 8/12's profile and no voice
// interpolates. A position is held to its clip each time before it is used, so that a wrong one is never heard.
#![tactic(auto)]

ghost use Rattle.std.specs.Prelude.{◌≡◌, ◌^◌, ◌≤◌, true};
ghost use Rattle.clip.specs.Plain.{is_plain};
ghost use Rattle.plain_voice.specs.Hots.{
  cold,
  plays_plain,
  hot_after,
  hot_at,
  judged_of,
  stepped_hot,
  can_plain,
  beat_of,
  Agreeing,
  PlainIndex,
  PlainQuickly,
};

use clip::{Clip, Mode};
use voice::{Quick, Tick, Voice};

// 2^24: up to this elapsed count a float holds each whole number.
pub const LAST_WHOLE: usize = 0x100_0000;

// 2^22, the longest recording.
const LONGEST: u32 = 0x40_0000;

// Whether the plain engine has the voice, and where it stands then: elapsed = lap * length + place, and start is the
// clip's, as a whole number. `plain` isn't an `Option` of the numbers: `Exactly` and `stepped_hot` say `plain` of every
// position, and a turn in place stores only `place` and `lap` (plain_channel, `hot_glide`).
#[derive(Clone, Copy)]
pub struct Hot {
    pub place: u32,
    pub lap: u32,
    pub start: u32,
    pub plain: bool,
}

// A tick's lengths as whole numbers, both 0 where no voice can be plain: as an `Option` it is no plainer, since `agrees`
// asks by `place < length` alone whether there is one.
#[derive(Clone, Copy)]
pub struct Beat {
    pub length: u32,
    pub total: u32,
}

#[tactic(auto, unfolding(crate::specs::Hots::cold))]
pub fn cold() -> Hot
    ensures { result ≡ cold }
{
    Hot {
        place: 0,
        lap: 0,
        start: 0,
        plain: false,
    }
}

// Whether the plain engine plays a voice of that clip at that time.
#[tactic(auto, unfolding(crate::specs::Hots::plays_plain))]
fn plays(c: Clip, now: usize, smooth: bool) -> bool
    ensures { result ≡ plays_plain smooth c now }
{
    if smooth {
        return false;
    }
    c.is_plain() & (c.elapsed_at(now) < LAST_WHOLE)
}

// Where such a clip stands after so many samples.
#[tactic(auto, using(crate::proofs::Hots::sized), unfolding(crate::specs::Hots::hot_after))]
fn hot_after(c: Clip, elapsed: usize) -> Hot
    requires { (is_plain c ≡ true) × (elapsed ≤ 2 ^ 24) }
    ensures { result ≡ hot_after c elapsed }
{
    let length = binary32::f32_to_usize(c.length);
    Hot {
        place: (elapsed % length) as u32,
        lap: (elapsed / length) as u32,
        start: binary32::f32_to_usize(c.start) as u32,
        plain: true,
    }
}

// A voice that starts at that time with that clip.
#[tactic(auto, using(crate::proofs::Hots::plays_so), unfolding(crate::specs::Hots::hot_at))]
pub fn hot_at(c: Clip, now: usize, smooth: bool) -> Hot
    ensures { result ≡ hot_at smooth c now }
{
    if plays(c, now, smooth) {
        hot_after(c, c.elapsed_at(now))
    } else {
        cold()
    }
}

impl Beat {
    // Whether a voice of that tick can be plain.
    #[tactic(auto, unfolding(crate::specs::Hots::can_plain))]
    fn can(t: Tick) -> bool
        ensures { result ≡ can_plain t }
    {
        (t.mode == Mode::Loop)
            & (!t.interpolates
                & (clip::whole_in(1, LONGEST as usize, t.span.length)
                    & clip::whole_in(1, LONGEST as usize, t.span.data_length)))
    }

    #[tactic(auto, using(crate::proofs::Hots::lengths_fit), unfolding(crate::specs::Hots::beat_of))]
    pub fn of(t: Tick) -> Self
        ensures { result ≡ beat_of t }
    {
        if !Self::can(t) {
            return Self {
                length: 0,
                total: 0,
            };
        }
        Self {
            length: binary32::f32_to_usize(t.span.length) as u32,
            total: binary32::f32_to_usize(t.span.data_length) as u32,
        }
    }
}

impl Hot {
    // One sample on.
    #[tactic(auto, unfolding(crate::specs::Hots::stepped_hot))]
    pub fn stepped(self, length: u32) -> Self
        ensures { result ≡ stepped_hot self length }
    {
        let next = std::num::wrapping_add_u32(self.place, 1);
        if next < length {
            return Hot {
                place: next,
                lap: self.lap,
                start: self.start,
                plain: true,
            };
        }
        Hot {
            place: 0,
            lap: std::num::wrapping_add_u32(self.lap, 1),
            start: self.start,
            plain: true,
        }
    }

    // That of a voice whose clip is c after its turn at that time.
    #[tactic(auto, using(crate::proofs::Hots::plays_so), unfolding(crate::specs::Hots::judged_of))]
    pub fn judged(self, c: Clip, now: usize, smooth: bool) -> Self
        ensures { result ≡ judged_of self smooth c now }
    {
        if !self.plain {
            return self;
        }
        if plays(c, now, smooth) {
            hot_after(c, c.elapsed_at(now) + 1)
        } else {
            cold()
        }
    }

    // Whether the position is that of the clip, of which the beat changes nothing, up to that elapsed count.
    pub fn agrees(self, c: Clip, t: Tick, b: Beat, speed: f32, last: usize) -> bool
        ensures { Agreeing self c t b speed last result }
    {
        // Four numbers that lie side by side are compared at once.
        let same = (c.speed == 1.0)
            & ((c.length == t.span.length)
                & ((c.data_length == t.span.data_length) & (c.shift == 0.0)));
        if !same {
            return false;
        }
        if LONGEST < self.start {
            return false;
        }
        // The tick's mode needn't be asked: a place is below the beat's length only if the tick loops.
        let elapsed = c.elapsed_at(t.now);
        let reached = (self.lap as usize) * (b.length as usize) + (self.place as usize);
        (c.mode == Mode::Loop)
            & ((speed == 1.0)
                & (((self.start as f32) == c.start)
                    & ((self.start <= b.total)
                        & ((elapsed <= last) & ((reached == elapsed) & (self.place < b.length))))))
    }

    // The index now by the position, where that agrees.
    pub fn index(self, c: Clip, t: Tick, b: Beat, speed: f32) -> Option<usize>
        ensures { PlainIndex self c t b speed result }
    {
        if !self.agrees(c, t, b, speed, LAST_WHOLE - 1) {
            return None;
        }
        let total = b.total as usize;
        let s = (self.start as usize) + (self.place as usize);
        if s < total {
            return Some(s);
        }
        let r = s - total;
        if r < total { Some(r) } else { None }
    }

    // The turn of a voice by its position.
    pub fn quick(self, v: Voice, t: Tick, b: Beat, data: &[u32]) -> Quick
        ensures { PlainQuickly self v t b «data».now result }
    {
        let otherwise = Quick {
            voice: v,
            glides: false,
        };
        if v.phrase != t.phrase {
            return otherwise;
        }
        let held = v.volume.held(t.now);
        if !held.keeps {
            return otherwise;
        }
        let Some(index) = self.index(v.clip2, t, b, v.speed * t.speed) else {
            return otherwise;
        };
        v.quick_at(t, index, voice::recorded(data, index) * held.level)
    }
}
