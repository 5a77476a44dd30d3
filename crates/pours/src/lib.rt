// A voice's samples of a run in one go (request 9/12): while nothing of it changes and nothing ends it, each is a recorded
// value times its level, and they are added to the sums of their frames. A plain voice at a steady level goes straight on
// through the recording; of any other the places are worked out first, and nothing is added where one isn't quickly told.
#![tactic(auto)]

ghost use Rattle.std.specs.Prelude.{◌≡◌, true, false, cond, ℕ, ◌+◌, ◌-◌, ◌%◌, ◌^◌, ◌≤◌, ◌<◌, T, length, get_or, IfSome};
ghost use Rattle.std.specs.Float.{binary32};
ghost use Rattle.std.specs.Float.Ieee.{sub, mul, rem, neg, lt, le};
ghost use Rattle.binary32.specs.Leaves.{zero32, as_float, as_whole, float_of, OrLess};
ghost use Rattle.clip.specs.Positions.{travel_at, raised_of, looped_of, folded_of, bounced_of, wrapped_of};
ghost use Rattle.clip.specs.Plain.{plain_index};
ghost use Rattle.plain_voice.specs.Hots.{beat_of};
ghost use Rattle.pours.specs.Eases.{EasesAt, term_at, LastButOne, last_heard, moved_on, Added};
ghost use Rattle.pours.specs.Pours.{Pours, Poured};
ghost use Rattle.pours.specs.Steady.{
  may_go,
  SteadyAt,
  PlaysBelow,
  Lasts,
  played_on,
  pace_of,
  leveled,
  ramp_by,
  travel_by,
  size_by,
  period_by,
  place_by,
  mode_by,
  LeftBy,
  Low,
  Spots,
  CountedPlaces,
  Places,
  Fetches,
  Gathers,
  StoodOn,
};

use clip::{Clip, Mode};
use common_types::NoteOffBehaviour;
use plain_voice::{Beat, Hot, LAST_WHOLE};
use voice::{Tick, Voice};
use volume::Volume;
use walks::smaller;

// The last time from which a run is worked out in one go: 2^62.
const LATEST: usize = 0x4000_0000_0000_0000;

// A voice that eases and its position, after all samples.
#[derive(Clone, Copy)]
pub struct Pouring {
    pub voice: Voice,
    pub hot: Hot,
}

// The sample of a place, where it is told: not an `Option`, since the loops store each and gather by `&` whether all are
// told, so that they are made of vectors (bench/TRIED.md).
#[derive(Clone, Copy)]
struct Spot {
    index: u32,
    told: bool,
}

// Which way a voice goes through one lap: on through its loop or back through it, or there and back. A const parameter
// can't be of an enum, and as a number it says less.
#[derive(Clone, Copy)]
enum Way {
    Up,
    Down,
    Fold,
}

// What fetching comes to: the last index, and how far the voice has played.
#[derive(Clone, Copy)]
struct Fetched {
    index: usize,
    played: f32,
}

// ---- whether a voice eases

// Whether n turns of a plain voice change nothing but what it has sounded and how far it has played: its level is steady,
// it is unfinished and doesn't finish, and its count of samples played stays exact.
fn eases(h: Hot, v: Voice, t: Tick, b: Beat, room: usize, n: usize) -> bool
    ensures { result ≡ true → b ≡ beat_of t → EasesAt h v t b room n }
{
    if LAST_WHOLE < n {
        return false;
    }
    let last = LAST_WHOLE - n;
    h.plain
        & (!v.finished
            & ((v.phrase == t.phrase)
                & ((1 <= n)
                    & ((b.total as usize <= room)
                        & (v.volume.is_static()
                            & ((v.clip2.since <= t.now)
                                & (h.agrees(v.clip2, t, b, v.speed * t.speed, last)
                                    & (clip::whole_in(0, last, v.played)
                                        & (!t.once
                                            | (v.played + binary32::usize_to_f32(n)
                                                < t.span.whole_length))))))))))
}

// ---- what it comes to

// x % by. Most often x is below it, or not far above.
fn rest(x: usize, by: usize) -> usize
    requires { 1 ≤ by }
    ensures { result ≡ x % by }
{
    if x < by {
        return x;
    }
    let y = x - by;
    if y < by { y } else { y % by }
}

// The sample that sounds k samples on, which may be beyond the loop's end.
fn index_at(h: Hot, b: Beat, k: usize) -> usize
    requires { (h.start ≤ 2 ^ 22) × (1 ≤ b.length) × (b.length ≤ 2 ^ 22) × (1 ≤ b.total) × (k ≤ 2 ^ 24) }
    ensures { result ≡ plain_index h.start b.length b.total (h.place + k) }
{
    let place = rest(h.place as usize + k, b.length as usize);
    rest(h.start as usize + place, b.total as usize)
}

// What a voice at that level adds from there.
fn term_at(data: &[u32], level: f32, index: usize) -> f32
    ensures { result ≡ term_at «data».now level index }
{
    voice::recorded(data, index) * level
}

// What it adds before the last of n samples from its place on, `before` being what it added last.
fn last_but_one(before: f32, h: Hot, b: Beat, data: &[u32], level: f32, n: usize) -> f32
    requires { (h.start ≤ 2 ^ 22) × (1 ≤ b.length) × (b.length ≤ 2 ^ 22) × (1 ≤ b.total) × (n ≤ 2 ^ 24) }
    ensures { LastButOne before (λ (k : ℕ). term_at «data».now level (plain_index h.start b.length b.total (h.place + k))) n result }
{
    if n < 2 {
        return before;
    }
    term_at(data, level, index_at(h, b, n - 2))
}

// The voice after some samples, of which the last two were `last` and the one at that index.
#[tactic(auto, unfolding(crate::specs::Eases::last_heard))]
fn heard(v: Voice, index: usize, value: f32, last: f32, played: f32) -> Voice
    ensures { result ≡ last_heard v index value last played }
{
    Voice {
        last_sample_index: index,
        played,
        last_sample_value: value,
        is_at_zero_crossing: binary32::crossing(value, last),
        ..v
    }
}

// The position n samples on.
fn moved(h: Hot, n: usize, round: usize) -> Hot
    requires { (h.place < round) × (round ≤ 2 ^ 22) × (h.lap + n ≤ 2 ^ 24) }
    ensures { result ≡ moved_on h n round }
{
    let s = (h.place as usize) + n;
    if s < round {
        return Hot {
            place: s as u32,
            plain: true,
            ..h
        };
    }
    Hot {
        place: (s % round) as u32,
        lap: h.lap + (s / round) as u32,
        plain: true,
        ..h
    }
}

// ---- the sums

// Adds what is recorded from `from` on, at that level, to m sums from `at` on.
fn pour(data: &[u32], from: usize, level: f32, sums: &mut [f32], at: usize, m: usize)
    requires { (from + m ≤ length «data».now) × (at + m ≤ length «sums».old) }
    ensures { Added (λ (k : ℕ). term_at «data».now level (from + (k - at))) at (at + m) «sums».old «sums».new }
{
    for k in 0..m {
        sums[at + k] += binary32::from_bits(data[from + k]) * level;
    }
}

// Adds n samples from its place on to the first n sums, in parts that go straight on. No `for`: each turn goes on by as many
// samples as its part has.
fn pour_all(h: Hot, b: Beat, data: &[u32], level: f32, sums: &mut [f32], n: usize)
    requires { (h.start ≤ 2 ^ 22) × (h.place < b.length) × (b.length ≤ 2 ^ 22) × (1 ≤ b.total) × (b.total ≤ length «data».now) × (n ≤ length «sums».old) }
    ensures { Added (λ (k : ℕ). term_at «data».now level (plain_index h.start b.length b.total (h.place + k))) 0 n «sums».old «sums».new }
{
    let start = h.start as usize;
    let round = b.length as usize;
    let total = b.total as usize;
    let mut at = h.place as usize;
    let mut f: usize = 0;
    while f < n {
        let from = rest(start + at, total);
        let m = smaller(smaller(round - at, total - from), n - f);
        pour(data, from, level, sums, f, m);
        at = rest(at + m, round);
        f += m;
    }
}

// Adds n samples of a plain voice that eases over them to the sums.
fn plainly(h: Hot, v: Voice, t: Tick, b: Beat, data: &[u32], sums: &mut [f32], n: usize) -> Pouring
    requires { EasesAt h v t b (length «data».now) n × (n ≤ length «sums».old) }
    ensures { Poured h v t «data».now n «sums».old «sums».new result }
{
    let level = v.volume.level(t.now);
    let last = last_but_one(v.last_sample_value, h, b, data, level, n);
    let index = index_at(h, b, n - 1);
    let value = term_at(data, level, index);
    let played = v.played + binary32::usize_to_f32(n);
    pour_all(h, b, data, level, sums, n);
    Pouring {
        voice: heard(v, index, value, last, played),
        hot: moved(h, n, b.length as usize),
    }
}

// ---- any steady voice

// Whether a voice may go within some samples: a finished one does once it is mute, where its note-off waits for that
// alone, and else it may at any of them.
fn may_go(v: Voice, behavior: NoteOffBehaviour) -> bool
    ensures { result ≡ may_go behavior v }
{
    if !v.finished {
        return false;
    }
    match behavior {
        NoteOffBehaviour::Decay => v.volume.is_static_and_mute(),
        NoteOffBehaviour::ZeroCrossing => true,
        NoteOffBehaviour::DecayAndZeroCrossing => true,
    }
}

// Whether n turns change nothing but what it has sounded and how far it has played, but for play-once.
fn steady(v: Voice, t: Tick, n: usize) -> bool
    ensures { result ≡ true → SteadyAt t n v }
{
    if n < 1 {
        return false;
    }
    if LAST_WHOLE < n {
        return false;
    }
    if LATEST < t.now {
        return false;
    }
    !may_go(v, t.note_off_behavior)
        & ((v.phrase == t.phrase)
            & (!t.interpolates
                & (v.volume.keeps(t.now + (n - 1))
                    & v.clip2.same_all(
                        t.span.length,
                        v.speed * t.speed,
                        t.span.data_length,
                        t.mode,
                    ))))
}

// The position after n turns of a steady voice, where it is known: that of one that isn't plain stays.
fn position_on(h: Hot, v: Voice, t: Tick, b: Beat, n: usize) -> Option<Hot>
    requires { (b ≡ beat_of t) × SteadyAt t n v }
    ensures { StoodOn h t n v result }
{
    if !h.plain {
        return Some(h);
    }
    if t.now < v.clip2.since {
        return None;
    }
    if !h.agrees(v.clip2, t, b, v.speed * t.speed, LAST_WHOLE - n) {
        return None;
    }
    Some(moved(h, n, b.length as usize))
}

// ---- where it is at each of n samples

// A small count as a float: as signed, of which the machine makes floats more quickly.
fn float_of(count: u32) -> f32
    requires { count ≤ 2 ^ 24 }
    ensures { result ≡ as_float count }
{
    (count as i32) as f32
}

// The travel of a clip so many samples after its last change, the lead of a negative speed among them.
fn travel(shift: f32, speed: f32, count: u32) -> f32
    requires { count ≤ 2 ^ 24 }
    ensures { result ≡ travel_by shift speed count }
{
    shift + float_of(count) * speed
}

fn size_of(x: f32) -> f32
    ensures { result ≡ cond (le zero32 x) x (neg x) }
{
    if x >= 0.0 { x } else { -x }
}

fn raised(y: f32, length: f32) -> f32
    ensures { result ≡ raised_of y length }
{
    if y >= 0.0 { y } else { y + length }
}

// The place in a loop of a travel x whose size leaves y.
fn turned(x: f32, y: f32, length: f32) -> f32
    ensures { result ≡ cond (le zero32 x) y (raised_of (neg y) length) }
{
    if x >= 0.0 { y } else { raised(-y, length) }
}

// The place in a loop of a travel, and that on a way there and back; a number below 0 where it isn't quickly worked out.
fn looped(x: f32, length: f32) -> f32
    ensures { OrLess (looped_of x length) result }
{
    let y = binary32::rem_or_less(size_of(x), length);
    if y >= 0.0 { turned(x, y, length) } else { y }
}

fn folded(y: f32, length: f32) -> f32
    ensures { result ≡ folded_of y length }
{
    if y < length {
        y
    } else {
        binary32::max(2.0 * length - y - 1.0, 0.0)
    }
}

fn bounced(x: f32, length: f32) -> f32
    ensures { OrLess (bounced_of x length) result }
{
    let y = binary32::rem_or_less(binary32::abs(x), 2.0 * length);
    if y >= 0.0 { folded(y, length) } else { y }
}

fn wrapped(mode: Mode, x: f32, length: f32) -> f32
    ensures { OrLess (wrapped_of mode x length) result }
{
    match mode {
        Mode::Loop => looped(x, length),
        Mode::PingPong => bounced(x, length),
    }
}

// s % total, where that comes to a number from 0 to below the total.
fn once_round(s: f32, total: f32) -> f32
    ensures { (result ≡ cond (lt s total) s (sub binary32 s total))
        × (T (le zero32 result) → T (lt result total) → result ≡ rem binary32 s total) }
{
    if s < total { s } else { s - total }
}

// The smaller of a place and the last.
fn lower(y: f32, top: f32) -> f32
    ensures { result ≡ cond (lt top y) top y }
{
    if top < y { top } else { y }
}

// What is told, else 0.
fn if_told(told: bool, x: f32) -> f32
    ensures { result ≡ cond told x zero32 }
{
    if told { x } else { 0.0 }
}

// The whole part of an offset, as binary32 works out that of a low float: the sum with 2^28 in f64 has 24 digits of
// fraction, in which none is rounded up to a whole number.
fn whole_of(x: f32) -> u32
    requires { Low x }
    ensures { result ≡ as_whole 64 x }
{
    (f64::to_bits((x as f64) + 268435456.0) / 0x100_0000 % 0x1000_0000) as u32
}

// The sample of a place in a clip.
fn spot_at(y: f32, start: f32, length: f32, total: f32) -> Spot
    ensures { Spots y start length total result }
{
    let t = once_round(start + lower(y, length - 1.0), total);
    let told = (t >= 0.0) & (t < total) & (total <= 8388608.0);
    Spot {
        index: whole_of(if_told(told, t)),
        told,
    }
}

// Puts the samples of n places into the list, from so many samples after the clip's last change on, its lead among them;
// or says that one isn't quickly worked out.
fn places_from(c: Clip, from: u32, values: &mut [u32], n: usize) -> bool
    requires { (from + n ≤ 2 ^ 24 + 1) × (n ≤ length «values».old) }
    ensures { (length «values».new ≡ length «values».old) × (result ≡ true → CountedPlaces c from n «values».new) }
{
    let mode = c.mode;
    let mut told = true;
    for k in 0..n {
        let y = wrapped(mode, travel(c.shift, c.speed, from + (k as u32)), c.length);
        let p = spot_at(y, c.start, c.length, c.data_length);
        values[k] = p.index;
        told = told & ((y >= 0.0) & p.told);
    }
    told
}

// ---- within one lap: what is left of a travel above 0 is told by one product for all n samples

fn size_by(way: Way, x: f32) -> f32
    ensures { result ≡ size_by way x }
{
    match way {
        Way::Up => x,
        Way::Down => -x,
        Way::Fold => x,
    }
}

fn period(way: Way, length: f32) -> f32
    ensures { result ≡ period_by way length }
{
    match way {
        Way::Up => length,
        Way::Down => length,
        Way::Fold => 2.0 * length,
    }
}

fn fold(y: f32, length: f32) -> f32
    ensures { result ≡ place_by Way.Fold y length }
{
    if y < length {
        return y;
    }
    let m = 2.0 * length - y - 1.0;
    if m < 0.0 { 0.0 } else { m }
}

// The place that so much is left to.
fn place_by(way: Way, y: f32, length: f32) -> f32
    ensures { result ≡ place_by way y length }
{
    match way {
        Way::Up => y,
        Way::Down => -y + length,
        Way::Fold => fold(y, length),
    }
}

// A float near x / y, plus 1.5 * 2^52. Any number would be right.
fn near_of(x: f32, y: f32) -> f64 {
    if (x > 0.0) & (y > 0.0) {
        (x as f64) * (1.0 / (y as f64)) - 0.49999999 + 6755399441055744.0
    } else {
        0.0
    }
}

// `x % y` by such a float, as `binary32::rem_or_less` has it, where both are above 0 and it is too; else 0.
fn left_by(x: f32, near: f64, y: f32) -> f32
    ensures { LeftBy x y result }
{
    if (x > 0.0) & (y > 0.0) {
        let wide = x as f64;
        let by = y as f64;
        let left = wide - (near - 6755399441055744.0) * by;
        if (near < 6755399449444352.0) & (left > 0.0) & (left < by) {
            left as f32
        } else {
            0.0
        }
    } else {
        0.0
    }
}

fn places_within(c: Clip, way: Way, near: f64, from: u32, values: &mut [u32], n: usize) -> bool
    requires { (c.mode ≡ mode_by way) × (from + n ≤ 2 ^ 24 + 1) × (n ≤ length «values».old) }
    ensures { (length «values».new ≡ length «values».old) × (result ≡ true → CountedPlaces c from n «values».new) }
{
    let mut told = true;
    for k in 0..n {
        let x = size_by(way, travel(c.shift, c.speed, from + (k as u32)));
        let y = left_by(x, near, period(way, c.length));
        let p = spot_at(place_by(way, y, c.length), c.start, c.length, c.data_length);
        values[k] = p.index;
        told = told & ((y > 0.0) & p.told);
    }
    told
}

// Each way by a function of its own, so that each is a loop of its own: one function called three times with a constant is
// made one call again, with no vectors (bench/TRIED.md).
fn places_up(c: Clip, near: f64, from: u32, values: &mut [u32], n: usize) -> bool
    requires { (c.mode ≡ Mode.Loop) × (from + n ≤ 2 ^ 24 + 1) × (n ≤ length «values».old) }
    ensures { (length «values».new ≡ length «values».old) × (result ≡ true → CountedPlaces c from n «values».new) }
{
    places_within(c, Way::Up, near, from, values, n)
}

fn places_down(c: Clip, near: f64, from: u32, values: &mut [u32], n: usize) -> bool
    requires { (c.mode ≡ Mode.Loop) × (from + n ≤ 2 ^ 24 + 1) × (n ≤ length «values».old) }
    ensures { (length «values».new ≡ length «values».old) × (result ≡ true → CountedPlaces c from n «values».new) }
{
    places_within(c, Way::Down, near, from, values, n)
}

fn places_fold(c: Clip, near: f64, from: u32, values: &mut [u32], n: usize) -> bool
    requires { (c.mode ≡ Mode.PingPong) × (from + n ≤ 2 ^ 24 + 1) × (n ≤ length «values».old) }
    ensures { (length «values».new ≡ length «values».old) × (result ≡ true → CountedPlaces c from n «values».new) }
{
    places_within(c, Way::Fold, near, from, values, n)
}

// The way of a travel.
fn way_of(mode: Mode, x: f32) -> Way
    ensures { mode ≡ mode_by result }
{
    match mode {
        Mode::Loop => { if x >= 0.0 { Way::Up } else { Way::Down } }
        Mode::PingPong => Way::Fold,
    }
}

// Either way: most often the first and the last of n samples are in one lap.
fn places_by(c: Clip, from: u32, values: &mut [u32], n: usize) -> bool
    requires { (1 ≤ n) × (from + n ≤ 2 ^ 24 + 1) × (n ≤ length «values».old) }
    ensures { (length «values».new ≡ length «values».old) × (result ≡ true → CountedPlaces c from n «values».new) }
{
    let mode = c.mode;
    let x = travel(c.shift, c.speed, from);
    let way = way_of(mode, x);
    let by = period(way, c.length);
    let near = near_of(size_by(way, x), by);
    let last = travel(c.shift, c.speed, from + ((n - 1) as u32));
    if !(left_by(size_by(way, last), near, by) > 0.0) {
        return places_from(c, from, values, n);
    }
    match way {
        Way::Up => places_up(c, near, from, values, n),
        Way::Down => places_down(c, near, from, values, n),
        Way::Fold => places_fold(c, near, from, values, n),
    }
}

// How many samples a negative speed is ahead.
fn lead(speed: f32) -> u32
    ensures { result ≡ cond (lt speed zero32) 1 0 }
{
    if speed < 0.0 { 1 } else { 0 }
}

// The travel of a clip at any time from its last change on.
fn travel_at(c: Clip, time: usize) -> f32
    requires { c.since ≤ time }
    ensures { result ≡ travel_at c time }
{
    c.shift + (binary32::usize_to_f32(time - c.since) + float_of(lead(c.speed))) * c.speed
}

// The samples of n places from any such time on. A loop that ends where one isn't told takes less stack.
fn places_far(c: Clip, time: usize, values: &mut [u32], n: usize) -> bool
    requires { (c.since ≤ time) × (time ≤ 2 ^ 62) × (n ≤ 2 ^ 24) × (n ≤ length «values».old) }
    ensures { (length «values».new ≡ length «values».old) × (result ≡ true → Places c time n «values».new) }
{
    let mode = c.mode;
    for k in 0..n {
        let y = wrapped(mode, travel_at(c, time + k), c.length);
        let p = spot_at(y, c.start, c.length, c.data_length);
        if !((y >= 0.0) & p.told) {
            return false;
        }
        values[k] = p.index;
    }
    true
}

// The samples of n places from that time on, by counts where they are exact, up to 2^24.
fn places(c: Clip, time: usize, values: &mut [u32], n: usize) -> bool
    requires { (time ≤ 2 ^ 62) × (1 ≤ n) × (n ≤ 2 ^ 24) × (n ≤ length «values».old) }
    ensures { (length «values».new ≡ length «values».old) × (result ≡ true → Places c time n «values».new) }
{
    if time < c.since {
        return false;
    }
    let elapsed = time - c.since;
    if elapsed <= LAST_WHOLE - n {
        return places_by(c, (elapsed as u32) + lead(c.speed), values, n);
    }
    places_far(c, time, values, n)
}

// ---- what it sounds

// Whether a sum of what is played reaches the whole length within n samples.
fn ends(played: f32, by: f32, whole: f32, n: usize) -> bool
    ensures { result ≡ false → PlaysBelow played by whole n }
{
    let mut sum = played;
    let mut over = false;
    for k in 0..n {
        sum += by;
        over = over | (whole <= binary32::abs(sum));
    }
    over
}

// Whether play-once, if it is so, goes on for n samples, after which the voice has played so far. Where it plays on, the
// last sum is the largest.
fn lasts(v: Voice, t: Tick, far: f32, n: usize) -> bool
    requires { (1 ≤ n) × (far ≡ played_on (pace_of t v) v.played n) }
    ensures { result ≡ true → Lasts t n v }
{
    if t.once & !v.finished {
        let speed = v.speed * t.speed;
        if (v.played > 0.0) & (speed > 0.0) {
            return !(t.span.whole_length <= far);
        }
        return !ends(v.played, speed, t.span.whole_length, n);
    }
    true
}

// The pattern recorded there.
fn pattern_at(data: &[u32], index: usize) -> u32
    ensures { result ≡ get_or «data».now index 0 }
{
    if index < data.len() { data[index] } else { 0 }
}

// Puts what is recorded at each of n samples in its place, and adds the speed as often.
fn fetch(data: &[u32], played: f32, by: f32, values: &mut [u32], n: usize) -> Fetched
    requires { n ≤ length «values».old }
    ensures { Fetches «data».now played by n «values».old «values».new result }
{
    let mut index: usize = 0;
    let mut sum = played;
    for k in 0..n {
        index = values[k] as usize;
        values[k] = pattern_at(data, index);
        sum += by;
    }
    Fetched { index, played: sum }
}

// Puts what is recorded at each of n samples of a steady voice into the list; nothing is told where play-once ends it, or
// where a place isn't quickly worked out.
fn gather(v: Voice, t: Tick, data: &[u32], values: &mut [u32], n: usize) -> Option<Fetched>
    requires { SteadyAt t n v × (n ≤ length «values».old) }
    ensures { (length «values».new ≡ length «values».old) × IfSome result (Gathers «data».now t n v «values».new) }
{
    if !places(v.clip2, t.now, values, n) {
        return None;
    }
    let f = fetch(data, v.played, v.speed * t.speed, values, n);
    if !lasts(v, t, f.played, n) {
        return None;
    }
    Some(f)
}

// What the list's k-th value sounds at the volume's level then.
fn value_at(values: &[u32], volume: Volume, time: usize, k: usize) -> f32
    requires { (time ≤ 2 ^ 62) × (k ≤ 2 ^ 24) × (k < length «values».now) }
    ensures { result ≡ leveled «values».now volume time k }
{
    binary32::from_bits(values[k]) * volume.level(time + k)
}

// Before the last of n: what it sounded before all of them, if there is but one.
fn value_before(before: f32, values: &[u32], volume: Volume, time: usize, n: usize) -> f32
    requires { (time ≤ 2 ^ 62) × (n ≤ 2 ^ 24) × (n ≤ length «values».now) }
    ensures { LastButOne before (leveled «values».now volume time) n result }
{
    if n < 2 {
        return before;
    }
    value_at(values, volume, time, n - 2)
}

// Adds n values at the volume's levels to the first n sums. A loop of its own beside `add_ramp`'s: one with a closure for the
// level is no plainer, since the times and the counts need their bounds at each call of it.
fn add_levels(values: &[u32], volume: Volume, time: usize, sums: &mut [f32], n: usize)
    requires { (time ≤ 2 ^ 62) × (n ≤ 2 ^ 24) × (n ≤ length «values».now) × (n ≤ length «sums».old) }
    ensures { Added (leveled «values».now volume time) 0 n «sums».old «sums».new }
{
    for k in 0..n {
        sums[k] += binary32::from_bits(values[k]) * volume.level(time + k);
    }
}

// The level of a ramp that rises from `low` by `rise` over so many samples.
fn ramp_level(count: u32, over: f32, low: f32, rise: f32) -> f32
    requires { count ≤ 2 ^ 24 }
    ensures { result ≡ ramp_by over low rise count }
{
    low + rise * binary32::min(binary32::max(float_of(count) / over, 0.0), 1.0)
}

// Adds n values at the levels of such a ramp to the first n sums.
fn add_ramp(values: &[u32], from: u32, over: f32, low: f32, rise: f32, sums: &mut [f32], n: usize)
    requires { (from + n ≤ 2 ^ 24) × (n ≤ length «values».now) × (n ≤ length «sums».old) }
    ensures { Added (λ (k : ℕ). term_at «values».now (ramp_by over low rise (from + k)) k) 0 n «sums».old «sums».new }
{
    for k in 0..n {
        sums[k] += binary32::from_bits(values[k]) * ramp_level(from + (k as u32), over, low, rise);
    }
}

fn add_at(values: &[u32], volume: Volume, time: usize, sums: &mut [f32], n: usize)
    requires { (time ≤ 2 ^ 62) × (n ≤ 2 ^ 24) × (n ≤ length «values».now) × (n ≤ length «sums».old) }
    ensures { Added (leveled «values».now volume time) 0 n «sums».old «sums».new }
{
    match volume {
        Volume::Static(level) => pour(values, 0, level, sums, 0, n),
        Volume::Linear {
            time_start,
            time_end,
            value_start,
            value_end,
        } => {
            if time_start <= time {
                let elapsed = time - time_start;
                if elapsed <= LAST_WHOLE - n {
                    let over = binary32::usize_to_f32(volume::since(time_start, time_end));
                    let rise = value_end - value_start;
                    add_ramp(values, elapsed as u32, over, value_start, rise, sums, n);
                    return;
                }
            }
            add_levels(values, volume, time, sums, n);
        }
    }
}

// Adds n samples of any voice to the sums, if it is steady over them and each is quickly worked out.
fn fully(
    h: Hot,
    v: Voice,
    t: Tick,
    b: Beat,
    data: &[u32],
    sums: &mut [f32],
    values: &mut [u32],
    n: usize,
) -> Option<Pouring>
    requires { (b ≡ beat_of t) × (n ≤ length «sums».old) × (n ≤ length «values».old) }
    ensures { Pours h v t «data».now n «sums».old «sums».new result }
{
    if !steady(v, t, n) {
        return None;
    }
    let hot = position_on(h, v, t, b, n)?;
    let g = gather(v, t, data, values, n)?;
    let value = value_at(values, v.volume, t.now, n - 1);
    let last = value_before(v.last_sample_value, values, v.volume, t.now, n);
    add_at(values, v.volume, t.now, sums, n);
    Some(Pouring {
        voice: heard(v, g.index, value, last, g.played),
        hot,
    })
}

// Adds n samples of the voice to the sums, if it eases over them; else they are left. What is left in the list of values is
// not to be looked at. A count beside the buffers, since those are arrays of the lent record and `Pours` says of the sums
// past n, too, that they stay.
pub fn poured(
    h: Hot,
    v: Voice,
    t: Tick,
    b: Beat,
    data: &[u32],
    sums: &mut [f32],
    values: &mut [u32],
    n: usize,
) -> Option<Pouring>
    requires { (b ≡ beat_of t) × (n ≤ length «sums».old) × (n ≤ length «values».old) }
    ensures { Pours h v t «data».now n «sums».old «sums».new result }
{
    if eases(h, v, t, b, data.len(), n) {
        return Some(plainly(h, v, t, b, data, sums, n));
    }
    fully(h, v, t, b, data, sums, values, n)
}
