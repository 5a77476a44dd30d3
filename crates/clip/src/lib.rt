// A clip: which part of a recording a voice plays, and where it is at a time. Each function equals a definition in
// specs/. `made`, `good`, `is_plain`, the functions that end in `_at` and those that begin with `with_` take every clip
// and every time: they are for clips that are known to be good. `sounding` is `with_all` and `offset_at` in one; of a
// clip that `with_all` would not change `quick_index` is `index_at` or no index, and `quick_next` is `next_at` or no
// index. Those under the Rust's names, and `update_all`, first refuse bad arguments (number 7 of document 01), and then
// answer the same.
#![tactic(auto)]

ghost use Rattle.std.specs.Prelude.{◌≡◌, not, cond, T};
ghost use Rattle.std.specs.Float.{binary32};
ghost use Rattle.std.specs.Float.Ieee.{add, rem, lt, is_nan};
ghost use Rattle.binary32.specs.Leaves.{OrLess, as_float};
ghost use Rattle.clip.specs.Positions.{
  elapsed_at,
  lead_of,
  travel_at,
  raised_of,
  looped_of,
  round_trip_of,
  mirrored_of,
  folded_of,
  bounced_of,
  wrapped_of,
  clamped_of,
  placed_of,
  clip_offset_at,
  clip_to_data_of,
  offset_at,
  position_of,
  sum_of,
  position_at,
  index_at,
  one_further,
  next_at,
  standing_of,
  StandsNow,
  sounding_of,
};
ghost use Rattle.clip.specs.Updates.{
  made_of,
  back_of,
  found_at,
  reversing_at,
  shift_for,
  resumed,
  settled_of,
  with_speed,
  with_mode,
  with_length,
  with_data_length,
  with_all,
  same_values,
  same_all,
};
ghost use Rattle.binary32.specs.Wholes.{is_whole_in};
ghost use Rattle.clip.specs.Plain.{is_plain};
ghost use Rattle.clip.specs.Quick.{QuickWrapped, QuickWhole, QuickIndex, QuickFraction, QuickNext};
ghost use Rattle.clip.specs.Refusals.{
  good_length,
  good_clip,
  clip_refused_at,
  new_clip_of,
  data_to_clip_of,
  is_pingpong_reversing_of,
  elapsed_of,
  clip_offset_of,
  offset_of,
  update_speed_of,
  update_mode_of,
  update_length_of,
  update_data_length_of,
  update_all_of,
};

use refusals::Refusal;

// A place or a length in samples.
pub type T = f32;

#[derive(Clone, Copy, PartialEq, Eq)]
pub enum Mode {
    Loop,
    PingPong,
}

#[derive(Clone, Copy)]
pub struct Clip {
    pub since: usize,
    pub start: T,
    pub speed: f32,
    pub length: T,
    pub data_length: T,
    pub shift: T,
    pub mode: Mode,
}

// An offset in the data: its whole part, which is the sample there, and what remains. The two add up to it.
#[derive(Clone, Copy)]
pub struct Position {
    pub index: usize,
    pub fraction: f32,
}

// A clip as it sounds at a time: with where it does, and the next index where that is asked for.
#[derive(Clone, Copy)]
pub struct Sounding {
    pub clip: Clip,
    pub position: Position,
    pub next: usize,
}

// An index, or NONE, with the offset that it is of: the fraction takes some work, and is wanted by few.
#[derive(Clone, Copy)]
pub struct Near {
    pub index: usize,
    pub offset: f32,
}

// A clip at a time, with the samples since its last change as a float: it is worked out once for all that is read and
// changed at that time, since a change that sets `since` leaves 0 of it.
#[derive(Clone, Copy)]
struct Standing {
    clip: Clip,
    now: usize,
    elapsed: f32,
}

// The answer of `quick_index` and `quick_next` that is no index.
// No Option: an index stays in one word on the quick way, as its callers test it (speed).
pub const NONE: usize = usize::MAX;

// 2^48.
const LAST_TIME: usize = 0x1_0000_0000_0000;

fn lead(speed: f32) -> f32
    ensures { result ≡ lead_of speed }
{
    if speed < 0.0 { 1.0 } else { 0.0 }
}

// One sample on from x, the way the clip moves.
fn ahead(x: f32, speed: f32) -> f32
    ensures { result ≡ one_further x speed }
{
    if speed < 0.0 { x - 1.0 } else { x + 1.0 }
}

fn raised(y: f32, length: f32) -> f32
    ensures { result ≡ raised_of y length }
{
    if y >= 0.0 { y } else { y + length }
}

// The samples since a clip's last change and `lead`, as the float that they add up to: up to 2^24 that is the float of
// a whole number. A turn waits for floats more than for whole numbers.
fn way(elapsed: usize, speed: f32) -> f32
    requires { T (not (is_nan speed)) }
    ensures { result ≡ add binary32 (as_float elapsed) (lead_of speed) }
{
    if elapsed < 0x100_0000 {
        if f32::to_bits(speed) > 0x8000_0000 {
            (elapsed + 1) as f32
        } else {
            elapsed as f32
        }
    } else {
        binary32::usize_to_f32(elapsed) + lead(speed)
    }
}

// Soon after a change of the clip x lies below twice the length, where the remainder takes no more than a difference.
fn looped(x: f32, length: f32) -> f32
    ensures { result ≡ looped_of x length }
{
    let t = quick_rem(x, length);
    if t >= 0.0 {
        return t;
    }
    raised(binary32::remainder(x, length), length)
}

fn round_trip(x: f32, length: f32) -> f32
    ensures { result ≡ round_trip_of x length }
{
    binary32::remainder(binary32::abs(x), 2.0 * length)
}

fn mirrored(y: f32, length: f32) -> f32
    ensures { result ≡ mirrored_of y length }
{
    2.0 * length - y - 1.0
}

fn folded(y: f32, length: f32) -> f32
    ensures { result ≡ folded_of y length }
{
    if y < length {
        y
    } else {
        binary32::max(mirrored(y, length), 0.0)
    }
}

#[tactic(auto, unfolding(crate::specs::Positions::bounced_of))]
fn bounced(x: f32, length: f32) -> f32
    ensures { result ≡ bounced_of x length }
{
    folded(round_trip(x, length), length)
}

#[tactic(auto, unfolding(crate::specs::Positions::wrapped_of))]
fn wrapped(mode: Mode, x: f32, length: f32) -> f32
    ensures { result ≡ wrapped_of mode x length }
{
    match mode {
        Mode::Loop => looped(x, length),
        Mode::PingPong => bounced(x, length),
    }
}

fn clamped(y: f32, length: f32) -> f32
    ensures { result ≡ clamped_of y length }
{
    binary32::min(y, length - 1.0)
}

#[tactic(auto, unfolding(crate::specs::Positions::placed_of))]
fn placed(mode: Mode, x: f32, length: f32) -> f32
    ensures { result ≡ placed_of mode x length }
{
    clamped(wrapped(mode, x, length), length)
}

// `looped`, `bounced` and `wrapped` by the remainder that may be left undone: where it is, they answer a number below
// 0, `quick_wrapped` also where the modes differ.
fn quick_looped(x: f32, length: f32) -> f32
    ensures { OrLess (looped_of x length) result }
{
    if x >= 0.0 {
        return binary32::rem_or_less(x, length);
    }
    let y = binary32::rem_or_less(-x, length);
    if y >= 0.0 { raised(-y, length) } else { y }
}

fn quick_bounced(x: f32, length: f32) -> f32
    ensures { OrLess (bounced_of x length) result }
{
    let y = binary32::rem_or_less(binary32::abs(x), 2.0 * length);
    if y >= 0.0 { folded(y, length) } else { y }
}

fn quick_wrapped(mode: Mode, old: Mode, x: f32, length: f32) -> f32
    ensures { QuickWrapped mode old x length result }
{
    match mode {
        Mode::Loop => match old {
            Mode::Loop => quick_looped(x, length),
            Mode::PingPong => -1.0,
        },
        Mode::PingPong => match old {
            Mode::Loop => -1.0,
            Mode::PingPong => quick_bounced(x, length),
        },
    }
}

// `quick_wrapped` for one mode. The next index has this of its own: a second call of `quick_wrapped` would keep it from
// being compiled into the first.
fn quick_stepped(mode: Mode, x: f32, length: f32) -> f32
    ensures { OrLess (wrapped_of mode x length) result }
{
    match mode {
        Mode::Loop => quick_looped(x, length),
        Mode::PingPong => quick_bounced(x, length),
    }
}

// s % length, for an s from 0 to below twice the length: there the difference is exact.
fn quick_rem(s: f32, length: f32) -> f32
    ensures { OrLess (rem binary32 s length) result }
{
    if s < length {
        return s;
    }
    let t = s - length;
    if t < length { t } else { -1.0 }
}

// The index of the place s in data of that length.
fn quick_whole(s: f32, length: f32) -> usize
    ensures { QuickWhole s length result }
{
    let t = quick_rem(s, length);
    if t >= 0.0 {
        binary32::f32_to_usize(t)
    } else {
        NONE
    }
}

fn good_length(length: f32) -> bool
    ensures { result ≡ good_length length }
{
    (1.0 <= length) & (length <= 4194304.0)
}

// The lower of two values. The test stands in the one way that is a single instruction; of a NaN it picks the first.
fn lower(a: f32, b: f32) -> f32
    ensures { result ≡ cond (lt b a) b a }
{
    if b < a { b } else { a }
}

// The higher of two values, likewise; of a NaN it picks the second.
fn higher(a: f32, b: f32) -> f32
    ensures { result ≡ cond (lt b a) a b }
{
    if a > b { a } else { b }
}

// Whether x is a whole number from low to top.
#[tactic(auto, unfolding(binary32::specs::Wholes::is_whole_in))]
pub fn whole_in(low: usize, top: usize, x: f32) -> bool
    ensures { result ≡ is_whole_in low top x }
{
    let n = binary32::f32_to_usize(x);
    (x == binary32::usize_to_f32(n)) & ((low <= n) & (n <= top))
}

impl Position {
    fn of(offset: f32) -> Self
        ensures { result ≡ position_of offset }
    {
        Self {
            index: binary32::f32_to_usize(offset),
            fraction: offset - binary32::floor(offset),
        }
    }

    #[tactic(auto, unfolding(crate::specs::Positions::sum_of))]
    pub fn sum(self) -> f32
        ensures { result ≡ sum_of self }
    {
        binary32::usize_to_f32(self.index) + self.fraction
    }
}

impl Near {
    // What remains of an offset of at least 0: of -0 that is +0, and from 2^24 on a float has no fraction.
    pub fn fraction(self) -> f32
        ensures { QuickFraction self result }
    {
        if self.index < 0x100_0000 {
            (self.offset - (self.index as f32)) + 0.0
        } else {
            0.0
        }
    }
}

impl Clip {
    // The two lengths and the start are judged by the ends between which they lie, in three tests and not six. A NaN
    // fails one of them: as the length it is the least, as the data length the most, as the start it isn't at least 0.
    pub fn good(self) -> bool
        ensures { result ≡ good_clip self }
    {
        let least = lower(self.length, self.data_length);
        let most = higher(self.length, self.data_length);
        let top = higher(self.start, most);
        (1.0 <= least) & ((0.0 <= self.start) & (top <= 4194304.0))
    }

    // Whether it is of request 8/12's profile: its positions are then whole numbers, up to an elapsed count of 2^24.
    #[tactic(auto, unfolding(crate::specs::Plain::is_plain))]
    pub fn is_plain(self) -> bool
        ensures { result ≡ is_plain self }
    {
        let start = binary32::f32_to_usize(self.start);
        let inside = start <= binary32::f32_to_usize(self.data_length);
        (self.mode == Mode::Loop)
            & ((self.shift == 0.0)
                & ((self.speed == 1.0)
                    & (whole_in(0, 0x40_0000, self.start)
                        & (whole_in(1, 0x40_0000, self.length)
                            & (whole_in(1, 0x40_0000, self.data_length) & inside)))))
    }

    // Whether number 7 refuses this clip at this time.
    #[tactic(auto, unfolding(crate::specs::Refusals::clip_refused_at))]
    fn refused_at(self, now: usize) -> bool
        ensures { result ≡ clip_refused_at self now }
    {
        !(self.good() & (self.since <= now) & (now <= LAST_TIME))
    }

    pub fn made(
        since: usize,
        start: f32,
        speed: f32,
        length: f32,
        data_length: f32,
        mode: Mode,
    ) -> Clip
        ensures { result ≡ made_of since start speed length data_length mode }
    {
        Clip {
            since,
            start,
            speed,
            length,
            data_length,
            shift: 0.0,
            mode,
        }
    }

    pub fn elapsed_at(self, now: usize) -> usize
        ensures { result ≡ elapsed_at self now }
    {
        now.saturating_sub(self.since)
    }

    #[tactic(auto, unfolding(crate::specs::Positions::standing_of))]
    fn standing_at(self, now: usize) -> Standing
        ensures { result ≡ standing_of self now }
    {
        Standing {
            clip: self,
            now,
            elapsed: binary32::usize_to_f32(self.elapsed_at(now)),
        }
    }

    #[tactic(auto, using(crate::proofs::Standings::standing_stands), unfolding(crate::specs::Positions::standing_of))]
    pub fn clip_offset_at(self, now: usize) -> f32
        ensures { result ≡ clip_offset_at self now }
    {
        self.standing_at(now).place()
    }

    // Most places lie below twice the data length, where the remainder takes no more than a difference.
    fn clip_to_data(self, place: f32) -> f32
        ensures { result ≡ clip_to_data_of self place }
    {
        let s = self.start + place;
        let left = quick_rem(s, self.data_length);
        if left >= 0.0 {
            left
        } else {
            binary32::remainder(s, self.data_length)
        }
    }

    #[tactic(auto, using(crate::proofs::Standings::standing_stands), unfolding(crate::specs::Positions::standing_of))]
    pub fn offset_at(self, now: usize) -> Position
        ensures { result ≡ position_at self now }
    {
        self.standing_at(now).position()
    }

    #[tactic(auto, unfolding(crate::specs::Positions::position_of, crate::specs::Positions::index_at))]
    pub fn index_at(self, now: usize) -> usize
        ensures { result ≡ index_at self now }
    {
        self.offset_at(now).index
    }

    // The next index: that of one sample on.
    #[tactic(auto, using(crate::proofs::Standings::standing_stands), unfolding(crate::specs::Positions::standing_of))]
    pub fn next_at(self, now: usize) -> usize
        ensures { result ≡ next_at self now }
    {
        self.standing_at(now).next()
    }

    #[tactic(auto, unfolding(crate::specs::Updates::back_of))]
    fn back(self, x: f32) -> f32
        ensures { result ≡ back_of self x }
    {
        if x >= self.start {
            x - self.start
        } else {
            x + self.data_length - self.start
        }
    }

    #[tactic(auto, unfolding(crate::specs::Updates::found_at))]
    pub fn found_at(self, x: f32) -> Option<f32>
        ensures { result ≡ found_at self x }
    {
        let y = self.back(x);
        if y < self.length { Some(y) } else { None }
    }

    #[tactic(auto, using(crate::proofs::Standings::standing_stands), unfolding(crate::specs::Positions::standing_of))]
    pub fn reversing_at(self, now: usize) -> bool
        ensures { result ≡ reversing_at self now }
    {
        self.standing_at(now).reversing()
    }

    #[tactic(auto, using(crate::proofs::Standings::standing_stands), unfolding(crate::specs::Positions::standing_of))]
    pub fn with_speed(self, now: usize, speed: f32) -> Clip
        ensures { result ≡ with_speed self now speed }
    {
        self.standing_at(now).paced(speed).clip
    }

    #[tactic(auto, using(crate::proofs::Standings::standing_stands), unfolding(crate::specs::Positions::standing_of))]
    pub fn with_mode(self, now: usize, mode: Mode) -> Clip
        ensures { result ≡ with_mode self now mode }
    {
        self.standing_at(now).turned(mode).clip
    }

    #[tactic(auto, using(crate::proofs::Standings::standing_stands), unfolding(crate::specs::Positions::standing_of))]
    pub fn with_length(self, now: usize, length: f32) -> Clip
        ensures { result ≡ with_length self now length }
    {
        self.standing_at(now).sized(length).clip
    }

    #[tactic(auto, using(crate::proofs::Standings::standing_stands), unfolding(crate::specs::Positions::standing_of))]
    pub fn with_data_length(self, now: usize, data_length: f32) -> Clip
        ensures { result ≡ with_data_length self now data_length }
    {
        self.standing_at(now).cut(data_length).clip
    }

    fn same_values(self, length: f32, speed: f32, data_length: f32) -> bool
        ensures { result ≡ same_values self length speed data_length }
    {
        length == self.length && speed == self.speed && data_length == self.data_length
    }

    // Whether each of the four parts of an update would be skipped.
    #[tactic(auto, unfolding(crate::specs::Updates::same_all))]
    pub fn same_all(self, length: f32, speed: f32, data_length: f32, mode: Mode) -> bool
        ensures { result ≡ same_all self length speed data_length mode }
    {
        self.same_values(length, speed, data_length) && mode == self.mode
    }

    // The four parts in their order. A clip that none of them changes, as it is at most samples, is told in front.
    fn moved_at(self, now: usize, length: f32, speed: f32, data_length: f32, mode: Mode) -> Standing
        ensures { result ≡ standing_of (with_all self now length speed data_length mode) now }
    {
        let standing = self.standing_at(now);
        if self.same_all(length, speed, data_length, mode) {
            return standing;
        }
        standing
            .sized(length)
            .paced(speed)
            .cut(data_length)
            .turned(mode)
    }

    #[tactic(auto, using(crate::proofs::Standings::standing_stands), unfolding(crate::specs::Positions::standing_of))]
    pub fn with_all(self, now: usize, length: f32, speed: f32, data_length: f32, mode: Mode) -> Clip
        ensures { result ≡ with_all self now length speed data_length mode }
    {
        self.moved_at(now, length, speed, data_length, mode).clip
    }

    pub fn sounding(
        self,
        now: usize,
        length: f32,
        speed: f32,
        data_length: f32,
        mode: Mode,
        smooth: bool,
    ) -> Sounding
        ensures { result ≡ sounding_of (with_all self now length speed data_length mode) now smooth }
    {
        let moved = self.moved_at(now, length, speed, data_length, mode);
        let position = moved.position();
        Sounding {
            clip: moved.clip,
            position,
            next: moved.beside(position.index, smooth),
        }
    }

    // `Standing::travel`, for a speed that is a number.
    fn quick_travel(self, now: usize) -> f32
        requires { T (not (is_nan self.speed)) }
        ensures { result ≡ travel_at self now }
    {
        self.shift + way(self.elapsed_at(now), self.speed) * self.speed
    }

    // The index now of a clip that none of the four parts of an update changes, where it is quickly worked out;
    // elsewhere NONE.
    pub fn quick_index(
        self,
        now: usize,
        length: f32,
        speed: f32,
        data_length: f32,
        mode: Mode,
    ) -> Near
        ensures { QuickIndex self now length speed data_length mode result }
    {
        if self.same_values(length, speed, data_length) & (length > 0.0) {
            let y = quick_wrapped(mode, self.mode, self.quick_travel(now), length);
            if y >= 0.0 {
                let offset = quick_rem(self.start + clamped(y, length), data_length);
                if offset >= 0.0 {
                    return Near {
                        index: binary32::f32_to_usize(offset),
                        offset,
                    };
                }
            }
        }
        Near {
            index: NONE,
            offset: 0.0,
        }
    }

    // The next index of such a clip, where it is quickly worked out; elsewhere NONE. Of a clip that `quick_index`
    // answers for, both tests in front hold.
    pub fn quick_next(self, now: usize, length: f32, data_length: f32, mode: Mode) -> usize
        ensures { QuickNext self now length data_length mode result }
    {
        if (length > 0.0) & (self.speed == self.speed) {
            let y = quick_stepped(mode, ahead(self.quick_travel(now), self.speed), length);
            if y >= 0.0 {
                return quick_whole(self.start + clamped(y, length), data_length);
            }
        }
        NONE
    }

    #[tactic(auto, unfolding(crate::specs::Refusals::new_clip_of))]
    pub fn new(
        since: usize,
        start: f32,
        speed: f32,
        length: f32,
        data_length: f32,
        mode: Mode,
    ) -> Result<Clip, Refusal>
        ensures { result ≡ new_clip_of since start speed length data_length mode }
    {
        let clip = Clip::made(since, start, speed, length, data_length, mode);
        Refusal::BadArgument.when(clip.refused_at(since))?;
        Ok(clip)
    }

    pub fn data_to_clip(self, x: f32) -> Result<Option<f32>, Refusal>
        ensures { result ≡ data_to_clip_of self x }
    {
        if self.good() & ((0.0 <= x) & (x < self.data_length)) {
            Ok(self.found_at(x))
        } else {
            Err(Refusal::BadArgument)
        }
    }

    #[tactic(auto, unfolding(crate::specs::Refusals::is_pingpong_reversing_of))]
    pub fn is_pingpong_reversing(self, now: usize) -> Result<bool, Refusal>
        ensures { result ≡ is_pingpong_reversing_of self now }
    {
        Refusal::BadArgument.when(self.refused_at(now))?;
        Ok(self.reversing_at(now))
    }

    #[tactic(auto, unfolding(crate::specs::Refusals::elapsed_of))]
    pub fn elapsed(self, now: usize) -> Result<usize, Refusal>
        ensures { result ≡ elapsed_of self now }
    {
        Refusal::BadArgument.when(self.refused_at(now))?;
        Ok(self.elapsed_at(now))
    }

    #[tactic(auto, unfolding(crate::specs::Refusals::clip_offset_of))]
    pub fn clip_offset(self, now: usize) -> Result<f32, Refusal>
        ensures { result ≡ clip_offset_of self now }
    {
        Refusal::BadArgument.when(self.refused_at(now))?;
        Ok(self.clip_offset_at(now))
    }

    #[tactic(auto, unfolding(crate::specs::Refusals::offset_of))]
    pub fn offset(self, now: usize) -> Result<Position, Refusal>
        ensures { result ≡ offset_of self now }
    {
        Refusal::BadArgument.when(self.refused_at(now))?;
        Ok(self.offset_at(now))
    }

    #[tactic(auto, unfolding(crate::specs::Refusals::update_speed_of))]
    pub fn update_speed(self, now: usize, speed: f32) -> Result<Clip, Refusal>
        ensures { result ≡ update_speed_of self now speed }
    {
        Refusal::BadArgument.when(self.refused_at(now))?;
        Ok(self.with_speed(now, speed))
    }

    #[tactic(auto, unfolding(crate::specs::Refusals::update_mode_of))]
    pub fn update_mode(self, now: usize, mode: Mode) -> Result<Clip, Refusal>
        ensures { result ≡ update_mode_of self now mode }
    {
        Refusal::BadArgument.when(self.refused_at(now))?;
        Ok(self.with_mode(now, mode))
    }

    #[tactic(auto, unfolding(crate::specs::Refusals::update_length_of))]
    pub fn update_length(self, now: usize, length: f32) -> Result<Clip, Refusal>
        ensures { result ≡ update_length_of self now length }
    {
        Refusal::BadArgument.when(self.refused_at(now) || !good_length(length))?;
        Ok(self.with_length(now, length))
    }

    #[tactic(auto, unfolding(crate::specs::Refusals::update_data_length_of))]
    pub fn update_data_length(self, now: usize, data_length: f32) -> Result<Clip, Refusal>
        ensures { result ≡ update_data_length_of self now data_length }
    {
        Refusal::BadArgument.when(self.refused_at(now) || !good_length(data_length))?;
        Ok(self.with_data_length(now, data_length))
    }

    #[tactic(auto, unfolding(crate::specs::Refusals::update_all_of))]
    pub fn update_all(
        self,
        now: usize,
        length: f32,
        speed: f32,
        data_length: f32,
        mode: Mode,
    ) -> Result<Clip, Refusal>
        ensures { result ≡ update_all_of self now length speed data_length mode }
    {
        Refusal::BadArgument.when(
            self.refused_at(now) || !good_length(length) || !good_length(data_length),
        )?;
        Ok(self.with_all(now, length, speed, data_length, mode))
    }
}

impl Standing {
    #[tactic(auto, unfolding(crate::specs::Positions::travel_at))]
    fn travel(self) -> f32
        requires { StandsNow self }
        ensures { result ≡ travel_at self.clip self.now }
    {
        self.clip.shift + (self.elapsed + lead(self.clip.speed)) * self.clip.speed
    }

    #[tactic(auto, unfolding(crate::specs::Positions::clip_offset_at))]
    fn place(self) -> f32
        requires { StandsNow self }
        ensures { result ≡ clip_offset_at self.clip self.now }
    {
        placed(self.clip.mode, self.travel(), self.clip.length)
    }

    #[tactic(auto, unfolding(crate::specs::Positions::offset_at))]
    fn offset(self) -> f32
        requires { StandsNow self }
        ensures { result ≡ offset_at self.clip self.now }
    {
        self.clip.clip_to_data(self.place())
    }

    fn position(self) -> Position
        requires { StandsNow self }
        ensures { result ≡ position_at self.clip self.now }
    {
        Position::of(self.offset())
    }

    fn next(self) -> usize
        requires { StandsNow self }
        ensures { result ≡ next_at self.clip self.now }
    {
        let further = ahead(self.travel(), self.clip.speed);
        let place = placed(self.clip.mode, further, self.clip.length);
        binary32::f32_to_usize(self.clip.clip_to_data(place))
    }

    // The next index where it is asked for, else the one given.
    fn beside(self, index: usize, smooth: bool) -> usize
        requires { StandsNow self }
        ensures { result ≡ cond smooth (next_at self.clip self.now) index }
    {
        if smooth { self.next() } else { index }
    }

    #[tactic(auto, unfolding(crate::specs::Updates::reversing_at))]
    fn reversing(self) -> bool
        requires { StandsNow self }
        ensures { result ≡ reversing_at self.clip self.now }
    {
        match self.clip.mode {
            Mode::Loop => false,
            Mode::PingPong => round_trip(self.travel(), self.clip.length) >= self.clip.length,
        }
    }

    #[tactic(auto, unfolding(crate::specs::Updates::shift_for))]
    fn shift_for(self, found: Option<f32>) -> f32
        requires { StandsNow self }
        ensures { result ≡ shift_for self.clip found self.now }
    {
        match found {
            Some(y) => if self.reversing() {
                mirrored(y, self.clip.length)
            } else {
                y
            },
            None => 0.0,
        }
    }

    // The clip goes on from that place at this time.
    fn resumed(self, shift: f32) -> Standing
        ensures { result ≡ standing_of (resumed self.clip shift self.now) self.now }
    {
        Standing {
            clip: Clip {
                since: self.now,
                shift,
                ..self.clip
            },
            now: self.now,
            elapsed: 0.0,
        }
    }

    // The clip has its field set, and still its old shift and `since`.
    fn settled(self, offset: f32) -> Standing
        requires { StandsNow self }
        ensures { result ≡ standing_of (settled_of self.clip offset self.now) self.now }
    {
        self.resumed(self.shift_for(self.clip.found_at(offset)))
    }

    #[tactic(auto, using(crate::proofs::Standings::standing_is, crate::proofs::AtOnce::speed_skipped), unfolding(crate::specs::Updates::with_speed))]
    fn paced(self, speed: f32) -> Standing
        requires { StandsNow self }
        ensures { result ≡ standing_of (with_speed self.clip self.now speed) self.now }
    {
        if speed == self.clip.speed {
            return self;
        }
        let paced = Standing {
            clip: Clip { speed, ..self.clip },
            ..self
        };
        paced.settled(self.offset())
    }

    #[tactic(auto, using(crate::proofs::Standings::standing_is, crate::proofs::AtOnce::mode_skipped), unfolding(crate::specs::Updates::with_mode))]
    fn turned(self, mode: Mode) -> Standing
        requires { StandsNow self }
        ensures { result ≡ standing_of (with_mode self.clip self.now mode) self.now }
    {
        if mode == self.clip.mode {
            return self;
        }
        let turned = Standing {
            clip: Clip { mode, ..self.clip },
            ..self
        };
        turned.settled(self.offset())
    }

    #[tactic(auto, using(crate::proofs::Standings::standing_is, crate::proofs::AtOnce::length_skipped), unfolding(crate::specs::Updates::with_length))]
    fn sized(self, length: f32) -> Standing
        requires { StandsNow self }
        ensures { result ≡ standing_of (with_length self.clip self.now length) self.now }
    {
        if length == self.clip.length {
            return self;
        }
        let sized = Standing {
            clip: Clip {
                length,
                ..self.clip
            },
            ..self
        };
        sized.settled(self.offset())
    }

    #[tactic(auto, using(crate::proofs::Standings::standing_is, crate::proofs::AtOnce::data_length_skipped))]
    fn cut(self, data_length: f32) -> Standing
        requires { StandsNow self }
        ensures { result ≡ standing_of (with_data_length self.clip self.now data_length) self.now }
    {
        if data_length == self.clip.data_length {
            return self;
        }
        let cut = Standing {
            clip: Clip {
                data_length,
                ..self.clip
            },
            ..self
        };
        if self.offset() >= data_length {
            return cut.resumed(0.0);
        }
        cut
    }
}
