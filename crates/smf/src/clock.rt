// The frame count of an event, in numbers of 64 bits.
ghost use Rattle.std.specs.Prelude.{◌≡◌, ℕ, ◌+◌, ◌*◌, ◌^◌, ◌≤◌, ◌<◌};
ghost use Rattle.smf.specs.Times.{last_frame, clock_at};

pub const LAST_FRAME: u64 = 0x1_0000_0000_0000;

// Frames a second, and ticks times microseconds in a second.
#[derive(Clone, Copy)]
pub struct Tune {
    pub rate: u64,
    pub unit: u64,
}

// Whole frames, and what is over of the next one, in parts of a frame of which `unit` make one.
#[derive(Clone, Copy)]
pub struct Clock {
    pub frames: u64,
    pub rest: u64,
}

// So many ticks later, at this tempo. Past the last frame the clock stands.
pub fn later(tune: Tune, clock: Clock, delta: u32, tempo: u32) -> Clock
    requires rate_bound { (tune.rate ≤ 192000) × (10 ^ 6 ≤ tune.unit) × (tune.unit < 2 ^ 35) }
    requires frames_bound { (clock.frames ≤ last_frame + 1) × (clock.rest < tune.unit) }
    ensures { (total : ℕ) → clock ≡ clock_at tune.unit total
        → result ≡ clock_at tune.unit (total + tune.rate * (delta * tempo)) }
{
    let rate = tune.rate;
    let unit = tune.unit;
    if LAST_FRAME < clock.frames {
        return clock;
    }
    let sum = (delta as u64) * (tempo as u64);
    let part = sum % unit * rate + clock.rest;
    let frames = clock.frames + sum / unit * rate + part / unit;
    if LAST_FRAME < frames {
        return Clock {
            frames: LAST_FRAME + 1,
            rest: 0,
        };
    }
    Clock {
        frames,
        rest: part % unit,
    }
}
