// One channel's sample in place: the channel is lent, and its voices are moved one at a time, so that no channel is
// copied. Each function equals the same definition as that of crate `channel` by value.
#![tactic(auto)]

ghost use Rattle.std.specs.Prelude.{◌≡◌, ◌≤◌, ◌<◌, ◌&&◌, true, cond, get_or, length};
ghost use Rattle.std.specs.List.{fold};
ghost use Rattle.std.specs.Float.{binary32};
ghost use Rattle.std.specs.Float.Ieee.{add};
ghost use Rattle.common_types.specs.Settings.{measure_of};
ghost use Rattle.voice.specs.Voices.{good_voice};
ghost use Rattle.phrases.specs.Phrases.{no_phrase, apart_of, good_at, is_in_order};
ghost use Rattle.channel.specs.Heads.{closed_of};
ghost use Rattle.channel.specs.Tables.{with_recording, good_table, against_by};
ghost use Rattle.channel.specs.Channels.{
  any_unfinished_of,
  live,
  with_head,
  played_of,
  turning_in,
  taken_of,
  memory_of,
  process_sample_of,
  beside_in,
  uses_of,
  against_of,
  good_channel,
};
ghost use Rattle.lent_channel.specs.Turns.{
  silent,
  begun,
  glided_to,
  next_voice,
  next_turn,
  turned_in,
  rested_of,
  rested_in,
  moved_by,
  Stands,
  Next,
  Onward,
  Goes,
  Glides,
  head_good_of,
  heard_of,
  mixed_with,
  looked_at,
  beside_next,
};

use channel::{Against, Ask, Channel, Head};
use common_types::{Measure, Params};
use phrases::{Beside, Phrase};
use voice::{Tick, Voice};

// What a sample of a channel hands up to the frame: its output, and how many voices moved up as others left.
#[derive(Clone, Copy)]
pub struct Heard {
    pub output: f32,
    pub moved: u8,
}

// What is heard of a channel without voices.
pub fn silence() -> Heard
    ensures { result ≡ silent }
{
    Heard {
        output: 0.0,
        moved: 0,
    }
}

// What the voices don't say of whether a channel may stand in a record of that capacity.
#[tactic(auto, unfolding(crate::specs::Turns::head_good_of))]
fn head_good(head: Head, count: usize, capacity: usize) -> bool
    ensures { result ≡ head_good_of capacity head count }
{
    (count <= 32) && head.good(capacity)
}

// Whether each voice is good. It goes on behind one that isn't: that is rare, and a way out of the loop would put a
// branch at each of a voice's tests.
fn good_voices(c: &Channel) -> bool
    ensures { result ≡ fold (λ ok v. ok && good_voice c.now.head.now v) true (live c.now) }
{
    let time = c.head.now;
    c.live().iter().fold(true, |ok, v| ok & v.good(time))
}

// Whether a voice is unfinished: mostly the first is.
#[tactic(auto, unfolding(channel::specs::Channels::any_unfinished_of))]
pub fn any_unfinished(c: &Channel) -> bool
    ensures { result ≡ any_unfinished_of c.now }
{
    c.live().iter().any(|v| !v.finished)
}

// The phrase of a number, by its entry of the table: the chosen one is the recording.
fn looked_at(p: Phrase, k: usize, head: Head) -> Phrase
    ensures { result ≡ looked_at p k head }
{
    if k == head.chosen as usize {
        return head.recording();
    }
    p
}

// The phrase of a number.
fn numbered(c: &Channel, k: usize) -> Phrase
    requires { k < 8 }
    ensures { result ≡ get_or (with_recording c.now.head c.now.table) k no_phrase }
{
    looked_at(c.table[k], k, c.head)
}

// Whether a phrase has no sample in common with those so far, and with one more.
fn still_apart(ok: bool, p: Phrase, q: Phrase) -> bool
    ensures { result ≡ (ok && apart_of p q) }
{
    ok & p.apart(q)
}

// Whether the k-th phrase lies within the capacity, and has no sample in common with those before it.
fn phrase_good(c: &Channel, k: usize, capacity: usize) -> bool
    requires { k < 8 }
    ensures { result ≡ good_at capacity (with_recording c.now.head c.now.table) k }
{
    let p = looked_at(c.table[k], k, c.head);
    let mut ok = p.ends_by(capacity);
    for j in 0..k {
        ok = still_apart(ok, p, looked_at(c.table[j], j, c.head));
    }
    ok
}

// How many entries of the table are looked at.
fn entries(several: bool) -> usize
    ensures { result ≡ cond several 8 0 }
{
    if several { 8 } else { 0 }
}

// Whether the phrases lie within the capacity, each behind those before it: mostly they do.
fn in_order(c: &Channel, capacity: usize) -> bool
    ensures { result
        ≡ is_in_order capacity (with_recording c.now.head c.now.table)
        (cond c.now.several 8 0) }
{
    let n = entries(c.several);
    let mut upto: usize = 0;
    for k in 0..n {
        let p = numbered(c, k);
        if !p.clear(upto, capacity) {
            return false;
        }
        upto = p.reach_from(upto);
    }
    true
}

// Whether the phrases lie within the capacity, and no two have a sample in common: each is held against those before it.
fn good_pairs(c: &Channel, capacity: usize) -> bool
    ensures { result
        ≡ good_table capacity c.now.head c.now.several c.now.table }
{
    let n = entries(c.several);
    for k in 0..n {
        if !phrase_good(c, k, capacity) {
            return false;
        }
    }
    true
}

// The same, told by their order where they stand in order.
fn good_phrases(c: &Channel, capacity: usize) -> bool
    ensures { result
        ≡ good_table capacity c.now.head c.now.several c.now.table }
{
    in_order(c, capacity) || good_pairs(c, capacity)
}

// Whether the channel may stand in a record of that capacity.
pub fn good(c: &Channel, capacity: usize) -> bool
    ensures { result ≡ good_channel capacity c.now }
{
    if head_good(c.head, c.count, capacity) {
        if good_voices(c) {
            return good_phrases(c, capacity);
        }
    }
    false
}

// Whether a voice has the phrase of that number.
#[tactic(auto, unfolding(channel::specs::Channels::uses_of))]
fn uses(c: &Channel, k: u8) -> bool
    ensures { result ≡ uses_of k c.now }
{
    c.live().iter().any(|v| v.phrase == k)
}

// What the phrases looked at so far say to a head's own, with one more.
fn beside_next(b: Beside, head: Head, k: usize, p: Phrase) -> Beside
    ensures { result ≡ beside_next b head k p }
{
    if k == head.chosen as usize {
        return b;
    }
    b.with(head.start, p)
}

// What the phrases that aren't chosen say to the one that is.
pub fn beside(c: &Channel, capacity: usize) -> Beside
    ensures { result ≡ beside_in capacity c.now }
{
    let n = entries(c.several);
    let mut b = Beside::none(capacity);
    for k in 0..n {
        b = beside_next(b, c.head, k, c.table[k]);
    }
    b
}

// What a change asks of a channel in a record of that capacity.
#[derive(Clone, Copy)]
pub struct Asking {
    pub ask: Ask,
    pub capacity: usize,
}

fn answered(a: Asking, head: Head, count: usize, used: bool, b: Beside) -> Against
    ensures { result ≡ against_by a.ask head count used b a.capacity }
{
    channel::held_against(a.ask, head, count, used, b, a.capacity)
}

// What the channel has against it.
pub fn against(c: &Channel, a: Asking) -> Against
    ensures { result ≡ against_of a.capacity a.ask c.now }
{
    let used = channel::leaving(a.ask).is_some_and(|k| uses(c, k));
    let b = beside(c, a.capacity);
    answered(a, c.head, c.count, used, b)
}

pub fn added(output: f32, w: Voice) -> f32
    ensures { result ≡ add binary32 output w.last_sample_value }
{
    output + w.last_sample_value
}

// Where the voices' turns stand: the place of the next, how many have stayed, what was heard of them, the place of the
// first that left, if one did, and whether each of them glided. `first` is no Option: `kept < place` says whether one left,
// and an Option would say so a second time.
#[derive(Clone, Copy)]
pub struct Going {
    pub place: usize,
    pub kept: usize,
    pub output: f32,
    pub first: usize,
    pub glides: bool,
}

// What a turn gives: the voice, whether it stays, and where the turns stand then.
#[derive(Clone, Copy)]
pub struct Turn {
    pub voice: Voice,
    pub stays: bool,
    pub next: Going,
}

// Before the first turn.
pub fn beginning() -> Going
    ensures { result ≡ begun }
{
    Going {
        place: 0,
        kept: 0,
        output: 0.0,
        first: 0,
        glides: true,
    }
}

// Voices up to that place have glided: each stayed where it was.
pub fn glided(upto: usize, output: f32) -> Going
    ensures { result ≡ glided_to upto output }
{
    Going {
        place: upto,
        kept: upto,
        output,
        first: 0,
        glides: true,
    }
}

// Voices of the tick's phrase take their turns in place, from the next on and before the n-th, up to the first that does
// not glide.
fn glide(c: &mut Channel, t: Tick, g: Going, n: usize, data: &[u32]) -> Going
    requires { Stands n g × (g.kept ≡ g.place) }
    ensures { Glides t «data».now n c.old g c.new result }
{
    let mut output = g.output;
    for i in g.place..n {
        let v = c.voices[i];
        let q = v.quick(t, data);
        if !q.glides {
            return glided(i, output);
        }
        let w = q.voice;
        c.voices[i] = w;
        output = added(output, w);
    }
    glided(n, output)
}

// The turn of the voice at the next place.
fn turned(g: Going, v: Voice, t: Tick, data: &[u32]) -> Turn
    requires { (g.place < 32) × (g.kept ≤ g.place) }
    ensures { result ≡ next_turn t «data».now g v }
{
    let place = g.place + 1;
    let voice = v.turn(t, data);
    let output = channel::sound(g.output, v, voice, t);
    if voice.should_remove(t) {
        return Turn {
            voice,
            stays: false,
            next: Going {
                place,
                kept: g.kept,
                output,
                first: if g.kept < g.place { g.first } else { g.place },
                glides: false,
            },
        };
    }
    Turn {
        voice,
        stays: true,
        next: Going {
            place,
            kept: g.kept + 1,
            output,
            first: g.first,
            glides: false,
        },
    }
}

// How many voices moved up: those that stayed behind the first that left.
pub fn moved_of(g: Going) -> u8
    requires { (g.kept ≤ 32) × (g.first ≤ g.kept) }
    ensures { result ≡ moved_by g }
{
    if g.kept < g.place {
        (g.kept - g.first) as u8
    } else {
        0
    }
}

// The next voice takes its turn. One that stays moves up where one before it has left.
pub fn turn_next(c: &mut Channel, t: Tick, g: Going, data: &[u32]) -> Going
    requires { (g.place < 32) × (g.kept ≤ g.place) }
    ensures next { result ≡ (next_turn t «data».now g (next_voice g c.old)).next }
    ensures channel { c.new ≡ turned_in g (next_turn t «data».now g (next_voice g c.old)) c.old }
    ensures all { length c.old.voices ≡ 32 }
{
    let r = turned(g, c.voices[g.place], t, data);
    if r.stays {
        c.voices[g.kept] = r.voice;
    }
    r.next
}

// Turns of voices of the tick's phrase, of which the next is one: those that glide, if all before them did and the next
// does; else that of the next.
fn stretch(c: &mut Channel, t: Tick, g: Going, n: usize, data: &[u32]) -> Going
    requires { Next n c.old t g }
    ensures { (g.place < result.place) × Goes t «data».now n c.old g c.new result }
{
    if g.glides {
        let h = glide(c, t, g, n, data);
        if g.place < h.place {
            return h;
        }
    }
    turn_next(c, t, g, data)
}

// The next voice takes no turn, and stays.
pub fn rest_next(c: &mut Channel, g: Going) -> Going
    requires { (g.place < 32) × (g.kept ≤ g.place) }
    ensures next { result ≡ rested_of g }
    ensures channel { c.new ≡ rested_in g c.old }
    ensures all { length c.old.voices ≡ 32 }
{
    c.voices[g.kept] = c.voices[g.place];
    Going {
        place: g.place + 1,
        kept: g.kept + 1,
        output: g.output,
        first: g.first,
        glides: g.glides,
    }
}

// The next turns, before the n-th voice: none of a voice whose phrase is empty. What voices share is worked out once for a
// stretch of them, by the measure of the parameters' loop length.
fn go_on(c: &mut Channel, g: Going, n: usize, params: Params, m: Measure, data: &[u32]) -> Going
    requires { Stands n g × (g.place < n) × (m ≡ measure_of params) }
    ensures further { g.place < result.place }
    ensures onward { Onward (turning_in params c.old «data».now) n c.old g c.new result }
    ensures all { length c.old.voices ≡ 32 }
{
    let k = c.voices[g.place].phrase;
    let phrase = c
        .head
        .phrase_by(k, c.several, c.table[channel::place_of(k)]);
    if phrase.length == 0 {
        return rest_next(c, g);
    }
    let t = Tick::measured(params, m, c.head.moment_on(k, phrase.length));
    let room = phrase.room(data.len());
    stretch(c, t, g, n, &data[room.from..room.to])
}

// Each voice takes its turn if its phrase isn't empty; those that are then to be removed leave, and the others move up in
// order.
fn play(c: &mut Channel, params: Params, data: &[u32]) -> Heard
    ensures { (result ≡ heard_of (played_of (turning_in params c.old «data».now) c.old))
        × (c.new
        ≡ (played_of (turning_in params c.old «data».now) c.old).channel) }
{
    let n = channel::places(c.count);
    let m = params.measure();
    let mut g = beginning();
    // No `for`: `go_on` passes as many places as glide.
    while g.place < n {
        g = go_on(c, g, n, params, m, data);
    }
    c.count = g.kept;
    Heard {
        output: g.output,
        moved: moved_of(g),
    }
}

// What the voices gave, mixed with the input.
fn mixed(head: Head, input: f32, heard: Heard) -> Heard
    ensures { result ≡ mixed_with head input heard }
{
    Heard {
        output: head.mixed(input, heard.output),
        moved: heard.moved,
    }
}

// The sample is recorded. While nothing is, neither the head nor the memory is stored, and else of the head what a
// recording changes.
pub fn record(c: &mut Channel, input: f32, data: &mut [u32])
    ensures { (c.new ≡ taken_of «data».old c.old)
        × («data».new ≡ memory_of input c.old «data».old) }
{
    let head = c.head;
    if head.is_recording() {
        let b = beside(c, 0);
        let room = head.room(b.behind, data.len());
        let after = head.recorded(input, &mut data[room.from..room.to]);
        c.head.data_len = after.data_len;
        c.head.recorder = after.recorder;
    }
}

// The end of a sample. Where pass-through rests only the clock is new.
pub fn close(c: &mut Channel, params: Params, unfinished: bool, input: f32, played: Heard) -> Heard
    ensures { (result ≡ mixed_with c.old.head input played)
        × (c.new ≡ with_head (closed_of params unfinished c.old.head) c.old) }
{
    let heard = mixed(c.head, input, played);
    if c.head.rests(channel::passes(params, unfinished)) {
        c.head.now = channel::next_time(c.head.now);
    } else {
        c.head = c.head.closed(params, unfinished);
    }
    heard
}

pub fn with_sample(c: &mut Channel, params: Params, input: f32, data: &mut [u32]) -> Heard
    ensures { (result ≡ heard_of (process_sample_of params input c.old «data».old))
        × (c.new ≡ (process_sample_of params input c.old «data».old).channel)
        × («data».new ≡ memory_of input c.old «data».old) }
{
    record(c, input, data);
    let mut played = silence();
    let mut unfinished = false;
    if c.count != 0 {
        played = play(c, params, data);
        unfinished = any_unfinished(c);
    }
    close(c, params, unfinished, input, played)
}
