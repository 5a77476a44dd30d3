// The level of a sound over time: steady, or a ramp. `level`, `toward`, `stepped` and `good` take every value of their
// arguments, and are for records that are known to be good. `value`, `to` and `step`, the Rust's names, refuse a bad
// argument first (number 7 of document 01).
#![tactic(auto)]

ghost use Rattle.std.specs.Prelude.{◌≡◌, ◌-◌};
ghost use Rattle.volume.specs.Levels.{
  default_volume,
  is_static_of,
  is_static_and_mute_of,
  progress_of,
  level_of,
  time_after,
  toward_of,
  stepped_of,
  keeps_of,
  held_of,
  good_ramp,
  good_volume,
  level_refused_at,
  value_answer,
  to_of,
  step_answer,
};

use refusals::Refusal;

#[derive(Clone, Copy)]
pub enum Volume {
    Static(f32),
    Linear {
        time_start: usize,
        time_end: usize,
        value_start: f32,
        value_end: f32,
    },
}

// A level at a time, and whether the step there changes nothing.
#[derive(Clone, Copy)]
pub struct Held {
    pub level: f32,
    pub keeps: bool,
}

// The last time and the longest ramp: 2^48 and 2^24.
const LAST_TIME: usize = 0x1_0000_0000_0000;

const LONGEST: usize = 0x100_0000;

impl Default for Volume {
    ghost is_default = { λ volume. volume ≡ default_volume };

    fn default() -> Self {
        Volume::Static(1.0)
    }
}

impl Volume {
    pub fn new(value: f32) -> Self
        ensures { result ≡ Volume.Static value }
    {
        Volume::Static(value)
    }

    pub fn is_static(self) -> bool
        ensures { result ≡ is_static_of self }
    {
        matches!(self, Volume::Static(_))
    }

    pub fn is_static_and_mute(self) -> bool
        ensures { result ≡ is_static_and_mute_of self }
    {
        match self {
            Volume::Static(value) => value == 0.0,
            Volume::Linear { .. } => false,
        }
    }

    pub fn set(self, value: f32) -> Self
        ensures { result ≡ Volume.Static value }
    {
        Volume::Static(value)
    }

    #[tactic(auto, unfolding(crate::specs::Levels::value_answer))]
    pub fn value(self, now: usize) -> Result<f32, Refusal>
        ensures { result ≡ value_answer self now }
    {
        Refusal::BadArgument.when(self.refused_at(now))?;
        Ok(self.level(now))
    }

    #[tactic(auto, unfolding(crate::specs::Levels::to_of))]
    pub fn to(self, now: usize, duration: usize, target: f32) -> Result<Self, Refusal>
        ensures { result ≡ to_of self now duration target }
    {
        Refusal::BadArgument.when(self.refused_at(now) || duration > LONGEST)?;
        Ok(self.toward(now, duration, target))
    }

    #[tactic(auto, unfolding(crate::specs::Levels::step_answer))]
    pub fn step(self, now: usize) -> Result<Self, Refusal>
        ensures { result ≡ step_answer self now }
    {
        Refusal::BadArgument.when(self.refused_at(now))?;
        Ok(self.stepped(now))
    }

    #[tactic(auto, unfolding(crate::specs::Levels::level_of))]
    pub fn level(self, now: usize) -> f32
        ensures { result ≡ level_of self now }
    {
        match self {
            Volume::Static(value) => value,
            Volume::Linear {
                time_start,
                time_end,
                value_start,
                value_end,
            } => value_start + (value_end - value_start) * progress(time_start, time_end, now),
        }
    }

    #[tactic(auto, unfolding(crate::specs::Levels::toward_of))]
    pub fn toward(self, now: usize, duration: usize, target: f32) -> Self
        ensures { result ≡ toward_of self now duration target }
    {
        if duration == 0 {
            return Volume::Static(target);
        }
        Volume::Linear {
            time_start: now,
            time_end: later(now, duration),
            value_start: self.level(now),
            value_end: target,
        }
    }

    // A ramp that goes on is made anew, as `copied` makes it, for the same reason.
    #[tactic(auto, unfolding(crate::specs::Levels::stepped_of))]
    pub fn stepped(self, now: usize) -> Self
        ensures { result ≡ stepped_of self now }
    {
        match self {
            Volume::Static(value) => Volume::Static(value),
            Volume::Linear {
                time_start,
                time_end,
                value_start,
                value_end,
            } => {
                if time_end <= now {
                    Volume::Static(value_end)
                } else {
                    Volume::Linear {
                        time_start,
                        time_end,
                        value_start,
                        value_end,
                    }
                }
            }
        }
    }

    // Whether the step at that time changes nothing.
    #[tactic(auto, unfolding(crate::specs::Levels::keeps_of))]
    pub fn keeps(self, now: usize) -> bool
        ensures { result ≡ keeps_of self now }
    {
        match self {
            Volume::Static(_) => true,
            Volume::Linear { time_end, .. } => now < time_end,
        }
    }

    // Both at once: what a ramp is made of is then read in one place.
    #[tactic(auto, unfolding(crate::specs::Levels::level_of, crate::specs::Levels::keeps_of))]
    pub fn held(self, now: usize) -> Held
        ensures { result ≡ held_of self now }
    {
        match self {
            Volume::Static(value) => Held {
                level: value,
                keeps: true,
            },
            Volume::Linear {
                time_start,
                time_end,
                value_start,
                value_end,
            } => Held {
                level: value_start
                    + (value_end - value_start) * progress(time_start, time_end, now),
                keeps: now < time_end,
            },
        }
    }

    // A copy made case by case. One of the whole would carry the gaps between its fields along, in pieces that a
    // processor is slow to join again.
    pub fn copied(self) -> Self
        ensures { result ≡ self }
    {
        match self {
            Volume::Static(value) => Volume::Static(value),
            Volume::Linear {
                time_start,
                time_end,
                value_start,
                value_end,
            } => Volume::Linear {
                time_start,
                time_end,
                value_start,
                value_end,
            },
        }
    }

    // Whether the volume may stand in a record whose clock is at `now`.
    #[tactic(auto, unfolding(crate::specs::Levels::good_volume))]
    pub fn good(self, now: usize) -> bool
        ensures { result ≡ good_volume now self }
    {
        match self {
            Volume::Static(_) => true,
            Volume::Linear {
                time_start,
                time_end,
                ..
            } => good_ramp(time_start, time_end, now),
        }
    }

    #[tactic(auto, unfolding(crate::specs::Levels::level_refused_at))]
    fn refused_at(self, now: usize) -> bool
        ensures { result ≡ level_refused_at self now }
    {
        now > LAST_TIME || !self.good(now)
    }
}

#[tactic(auto, unfolding(crate::specs::Levels::good_ramp))]
fn good_ramp(start: usize, end: usize, now: usize) -> bool
    ensures { result ≡ good_ramp start end now }
{
    start < end && end - start <= LONGEST && start <= now
}

fn progress(start: usize, end: usize, now: usize) -> f32
    ensures { result ≡ progress_of start end now }
{
    let elapsed = binary32::usize_to_f32(since(start, now));
    let duration = binary32::usize_to_f32(since(start, end));
    binary32::min(binary32::max(elapsed / duration, 0.0), 1.0)
}

// How much later `now` is than `start`, and 0 where it is not.
pub fn since(start: usize, now: usize) -> usize
    ensures { result ≡ now - start }
{
    now.saturating_sub(start)
}

fn later(now: usize, duration: usize) -> usize
    ensures { result ≡ time_after now duration }
{
    now.saturating_add(duration)
}
