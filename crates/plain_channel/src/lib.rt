// One channel's sample in place, with the positions of plain voices lent beside the channel (request 9/12). The channel is
// the one that `lent_channel` leaves, whatever the positions are.
#![tactic(auto)]

ghost use Rattle.std.specs.Prelude.{◌≡◌, ◌≤◌, ◌<◌, min, [], ◌∷◌};
ghost use Rattle.common_types.specs.Settings.{measure_of};
ghost use Rattle.channel.specs.Channels.{turning_in, memory_of};
ghost use Rattle.lent_channel.specs.Turns.{heard_of, Stands, Next};
ghost use Rattle.plain_channel.specs.Sides.{
  no_pour,
  cold_side,
  taken_at,
  followed_by,
  Together,
  GoTogether,
  GlideTogether,
  Paced,
};
ghost use Rattle.plain_channel.specs.Ahead.{
  behind_of,
  side_behind,
  PlaysFrom,
  rested_side,
  may_ease,
  stretch_of,
  left_of,
  Easing,
  Eases,
  EasedBy,
  Refilled,
  InRun,
  Along,
};

use channel::{Channel, Head};
use common_types::{Measure, Params};
use lent_channel::{Going, Heard};
use plain_voice::{Beat, Hot};
use voice::Tick;

// At most so many samples of a run are poured at a time.
pub const STRETCH: usize = 64;

// In a run the first `eased` voices are `left` samples ahead of their channel. What they add in these samples stands from
// `next` on; `values` is room to work one voice out in.
#[derive(Clone, Copy)]
pub struct Pour {
    pub sums: [f32; STRETCH],
    pub values: [u32; STRETCH],
    pub eased: usize,
    pub next: usize,
    pub left: usize,
}

impl Pour {
    pub fn new() -> Self
        ensures { result ≡ no_pour }
    {
        Self {
            sums: [0.0; STRETCH],
            values: [0; STRETCH],
            eased: 0,
            next: 0,
            left: 0,
        }
    }
}

// What stands beside a channel: a position for each voice, and in a run what the first have poured.
#[derive(Clone, Copy)]
pub struct Side {
    pub hots: [Hot; 32],
    pub pour: Pour,
}

impl Side {
    pub fn new() -> Self
        ensures { result ≡ cold_side }
    {
        let hot = plain_voice::cold();
        Self {
            hots: [hot; 32],
            pour: Pour::new(),
        }
    }
}

// Voices of the tick's phrase take their turns in place, from the next on and before the n-th, up to the first that is plain
// or doesn't glide.
fn cool_glide(c: &mut Channel, side: &mut Side, t: Tick, g: Going, n: usize, data: &[u32]) -> Going
    requires { Stands n g × (g.kept ≡ g.place) }
    ensures { GlideTogether t «data».now n c.old side.old g c.new
        side.new result }
{
    let mut output = g.output;
    for i in g.place..n {
        if side.hots[i].plain {
            return lent_channel::glided(i, output);
        }
        let v = c.voices[i];
        let q = v.quick(t, data);
        if !q.glides {
            return lent_channel::glided(i, output);
        }
        let w = q.voice;
        c.voices[i] = w;
        output = lent_channel::added(output, w);
    }
    lent_channel::glided(n, output)
}

// Plain voices take their turns in place, from the next on and before the n-th, up to the first that isn't plain or
// doesn't glide. Of voice and position only what a turn changes is stored.
fn hot_glide(
    c: &mut Channel,
    side: &mut Side,
    t: Tick,
    b: Beat,
    g: Going,
    n: usize,
    data: &[u32],
) -> Going
    requires { Stands n g × (g.kept ≡ g.place) × Paced c.old t b }
    ensures { GlideTogether t «data».now n c.old side.old g c.new
        side.new result }
{
    let mut output = g.output;
    for i in g.place..n {
        let h = side.hots[i];
        if !h.plain {
            return lent_channel::glided(i, output);
        }
        let v = c.voices[i];
        let q = h.quick(v, t, b, data);
        if !q.glides {
            return lent_channel::glided(i, output);
        }
        let w = q.voice;
        c.voices[i].last_sample_index = w.last_sample_index;
        c.voices[i].played = w.played;
        c.voices[i].last_sample_value = w.last_sample_value;
        c.voices[i].is_at_zero_crossing = w.is_at_zero_crossing;
        let next = h.stepped(b.length);
        side.hots[i].place = next.place;
        side.hots[i].lap = next.lap;
        output = lent_channel::added(output, w);
    }
    lent_channel::glided(n, output)
}

// The voice that stood at g's place has taken its turn, or rested, and stands at g's count of those that stay if it does:
// its position is judged, and moves up with it.
fn followed(c: &Channel, side: &mut Side, g: Going, r: Going) -> Going
    requires { (g.place < 32) × (g.kept ≤ g.place) }
    ensures { (result ≡ r) × (side.new ≡ followed_by c.now g r side.old) }
{
    if g.kept < r.kept {
        if side.hots[g.place].plain {
            let h = side.hots[g.place];
            side.hots[g.kept] = h.judged(c.voices[g.kept].clip2, c.head.now, c.head.interpolates);
        } else {
            side.hots[g.kept] = side.hots[g.place];
        }
    }
    r
}

// Turns of voices of the tick's phrase, of which the next is one: those that glide, if all before them did and the next
// does; else that of the next.
fn stretch(c: &mut Channel, side: &mut Side, t: Tick, g: Going, n: usize, data: &[u32]) -> Going
    requires { Next n c.old t g × (t.now ≡ c.old.head.now) × (t.interpolates ≡ c.old.head.interpolates) }
    ensures { (g.place < result.place)
        × GoTogether t «data».now n c.old side.old g c.new side.new result }
{
    if g.glides {
        let p = side.hots[g.place];
        if p.plain {
            let h = hot_glide(c, side, t, Beat::of(t), g, n, data);
            if g.place < h.place {
                return h;
            }
        } else {
            let h = cool_glide(c, side, t, g, n, data);
            if g.place < h.place {
                return h;
            }
        }
    }
    let r = lent_channel::turn_next(c, t, g, data);
    followed(c, side, g, r)
}

// The next turns, before the n-th voice: none of a voice whose phrase is empty.
fn go_on(
    c: &mut Channel,
    side: &mut Side,
    g: Going,
    n: usize,
    params: Params,
    m: Measure,
    data: &[u32],
) -> Going
    requires { Stands n g × (g.place < n) × (m ≡ measure_of params) }
    ensures { (g.place < result.place)
        × Together (turning_in params c.old «data».now) n c.old side.old g
        c.new side.new result }
{
    let k = c.voices[g.place].phrase;
    let phrase = c
        .head
        .phrase_by(k, c.several, c.table[channel::place_of(k)]);
    if phrase.length == 0 {
        let r = lent_channel::rest_next(c, g);
        return followed(c, side, g, r);
    }
    let t = Tick::measured(params, m, c.head.moment_on(k, phrase.length));
    let room = phrase.room(data.len());
    stretch(c, side, t, g, n, &data[room.from..room.to])
}

// Each voice from g's place on takes its turn if its phrase isn't empty; those that are then to be removed leave, and the
// others move up in order, with their positions. No `for`: a turn of the loop goes on by as many voices as glide.
fn play(
    c: &mut Channel,
    side: &mut Side,
    params: Params,
    from: usize,
    first: f32,
    data: &[u32],
) -> Heard
    requires { from ≤ min c.old.count 32 }
    ensures { PlaysFrom params «data».now from first c.old side.old result c.new
        side.new }
{
    let n = channel::places(c.count);
    let m = params.measure();
    let mut g = lent_channel::glided(from, first);
    while g.place < n {
        g = go_on(c, side, g, n, params, m, data);
    }
    c.count = g.kept;
    Heard {
        output: g.output,
        moved: lent_channel::moved_of(g),
    }
}

// What is heard of the voices that are ahead.
fn heard_ahead(first: f32) -> Heard
    ensures { result ≡ record { output = first; moved = 0 } }
{
    Heard {
        output: first,
        moved: 0,
    }
}

// A sample of the channel behind the first `from` voices, which are ahead and add `first`: its plain voices by their
// positions.
pub fn behind(
    c: &mut Channel,
    side: &mut Side,
    params: Params,
    input: f32,
    data: &mut [u32],
    from: usize,
    first: f32,
) -> Heard
    requires { from ≤ min c.old.count 32 }
    ensures { (result ≡ heard_of (behind_of params input from first c.old «data».old))
        × (c.new ≡ (behind_of params input from first c.old «data».old).channel)
        × («data».new ≡ memory_of input c.old «data».old)
        × (side.new ≡ side_behind params input from c.old «data».old side.old) }
{
    lent_channel::record(c, input, data);
    let mut played = heard_ahead(first);
    if c.count != from {
        played = play(c, side, params, from, first, data);
    }
    let unfinished = lent_channel::any_unfinished(c);
    lent_channel::close(c, params, unfinished, input, played)
}

// The voice at that place has just started.
pub fn take(c: &Channel, side: &mut Side, at: usize)
    ensures { side.new ≡ taken_at c.now at side.old }
{
    if at < channel::places(c.count) {
        side.hots[at] = plain_voice::hot_at(c.voices[at].clip2, c.head.now, c.head.interpolates);
    }
}

// ---- runs

// Pours the voice at that place over n samples, if it eases over them, and says whether it did.
fn ease_next(
    c: &mut Channel,
    side: &mut Side,
    i: usize,
    n: usize,
    params: Params,
    m: Measure,
    data: &[u32],
) -> bool
    requires { Easing params «data».now i n c.old side.old × (i < min c.old.count 32) × (m ≡ measure_of params) }
    ensures { Eases params «data».now i n c.old side.old result c.new
        side.new }
{
    let h = side.hots[i];
    let v = c.voices[i];
    let k = v.phrase;
    let phrase = c
        .head
        .phrase_by(k, c.several, c.table[channel::place_of(k)]);
    if phrase.length == 0 {
        return false;
    }
    let t = Tick::measured(params, m, c.head.moment_on(k, phrase.length));
    let room = phrase.room(data.len());
    let poured = pours::poured(
        h,
        v,
        t,
        Beat::of(t),
        &data[room.from..room.to],
        &mut side.pour.sums,
        &mut side.pour.values,
        n,
    );
    let Some(r) = poured else {
        return false;
    };
    c.voices[i] = r.voice;
    side.hots[i] = r.hot;
    true
}

// Pours the first voices, as many as ease over n samples one after the other, and says how many.
fn ease(c: &mut Channel, side: &mut Side, params: Params, n: usize, data: &[u32]) -> usize
    requires { Easing params «data».now 0 n c.old side.old }
    ensures { EasedBy params «data».now n c.old side.old result c.new
        side.new }
{
    let turns = channel::places(c.count);
    let m = params.measure();
    for i in 0..turns {
        if !ease_next(c, side, i, n, params, m, data) {
            return i;
        }
    }
    turns
}

// So many samples are poured at a time of those to go.
fn stretch_of(togo: usize) -> usize
    ensures { result ≡ stretch_of togo }
{
    if togo < STRETCH { togo } else { STRETCH }
}

// Where none eases one sample is left to the turns, since in the next the voices may; but not twice, since those that
// interpolate never do.
fn left_of(togo: usize, n: usize, eased: usize) -> usize
    ensures { result ≡ left_of togo n eased }
{
    if eased == 0 {
        if togo % 2 == 0 {
            if 1 < n {
                return 1;
            }
        }
    }
    n
}

// Whether voices may be ahead by n samples: nothing is recorded, and the clock doesn't end.
fn may_ease(head: Head, n: usize) -> bool
    ensures { result ≡ may_ease head n }
{
    if head.is_recording() {
        return false;
    }
    if channel::LAST_TIME < n {
        return false;
    }
    head.now <= channel::LAST_TIME - n
}

// The first voices are poured over the next samples of the run.
fn refill(c: &mut Channel, side: &mut Side, params: Params, togo: usize, data: &[u32])
    ensures { Refilled params «data».now togo c.old side.old c.new
        side.new }
{
    let n = stretch_of(togo);
    side.pour = Pour::new();
    side.pour.left = n;
    if may_ease(c.head, n) {
        let eased = ease(c, side, params, n, data);
        let left = left_of(togo, n, eased);
        side.pour.left = left;
        side.pour.eased = eased;
    }
}

// A sample of a run with so many samples to go, this one among them.
pub fn along(
    c: &mut Channel,
    side: &mut Side,
    params: Params,
    input: f32,
    data: &mut [u32],
    togo: usize,
) -> Heard
    requires { InRun params «data».old togo c.old side.old }
    ensures { Along params input «data».old togo c.old side.old result c.new
        side.new «data».new }
{
    if side.pour.left == 0 {
        refill(c, side, params, togo, data);
    }
    prove!(c.voices[..].len() == 32);
    let first = side.pour.sums[side.pour.next];
    side.pour.next = side.pour.next + 1;
    side.pour.left = side.pour.left - 1;
    let eased = side.pour.eased;
    behind(c, side, params, input, data, eased, first)
}

// No run: nothing is poured.
pub fn rest(side: &mut Side)
    ensures { side.new ≡ rested_side side.old }
{
    side.pour = Pour::new();
}
