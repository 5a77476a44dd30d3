// A change other than a sample, and a gather, made of a lent channel in place. One loop serves a stop, a note's speed and
// a start that finds no place; a new voice, the count and the head are stored once, after it.
#![tactic(auto)]

ghost use Rattle.std.specs.Prelude.{◌≡◌, ◌-◌, ◌<◌, ◌≤◌, not, ◌&&◌, ◌||◌, ◌++◌, length, take, drop};
ghost use Rattle.phrases.specs.Gathering.{gathering_of};
ghost use Rattle.channel.specs.Channels.{changed_of, gathered_in, gathered_memory};
ghost use Rattle.lent_changes.specs.Changes.{
  asks_voices,
  stores_behind,
  start_pass,
  going_of,
  pass_of,
  hits_of,
  remade_of,
  passed_of,
  started_voice,
  aside_of,
  passing_if,
  passing_of,
  altered_of,
  handled_by,
  head_ended,
};
ghost use Rattle.lent_changes.specs.Laying.{phrases_by, laid_of};

use channel::{Change, Channel, Head};
use common_types::{Note, Params};
use phrases::{Beside, Phrase};
use voice::Voice;

// The first `turns` voices are gone through, and there are `count` afterwards. Those with the note are finished if it is
// a stop, and have the speed set otherwise. If `fresh`, a new voice is stored behind all. What those gone through tell:
// one was changed, and one is unfinished.
#[derive(Clone, Copy)]
pub struct Pass {
    pub turns: usize,
    pub count: usize,
    pub now: usize,
    pub decay_samples: usize,
    pub speed: f32,
    pub note: Note,
    pub stop: bool,
    pub fresh: bool,
    pub found: bool,
    pub unfinished: bool,
}

// Voices are asked, and none is changed: a stop that has its voice.
#[tactic(auto, unfolding(crate::specs::Changes::asks_voices))]
fn asking(turns: usize, count: usize, head: Head) -> Pass
    ensures { result ≡ asks_voices turns count head }
{
    let note = Note::default();
    Pass {
        turns,
        count,
        now: head.now,
        decay_samples: 0,
        speed: 0.0,
        note,
        stop: true,
        fresh: false,
        found: true,
        unfinished: false,
    }
}

// One voice more is stored behind the others.
#[tactic(auto, unfolding(crate::specs::Changes::stores_behind))]
fn behind(count: usize, head: Head) -> Pass
    requires { count < 32 }
    ensures { result ≡ stores_behind count head }
{
    let note = Note::default();
    Pass {
        turns: 0,
        count: count + 1,
        now: head.now,
        decay_samples: 0,
        speed: 0.0,
        note,
        stop: true,
        fresh: true,
        found: true,
        unfinished: true,
    }
}

// A start on no recording stores no voice. Where there is no place for one every voice is asked, for the pass-through.
#[tactic(auto, unfolding(crate::specs::Changes::start_pass))]
fn start_pass(count: usize, head: Head) -> Pass
    ensures { result ≡ start_pass count head }
{
    if head.data_len == 0 {
        return asking(0, count, head);
    }
    if 32 <= count {
        return asking(32, count, head);
    }
    behind(count, head)
}

// Every voice is gone through, and those with the note are changed.
#[tactic(auto, unfolding(crate::specs::Changes::going_of))]
fn going(count: usize, head: Head, note: Note, stop: bool, decay_samples: usize, speed: f32) -> Pass
    ensures { result ≡ going_of count head note stop decay_samples speed }
{
    Pass {
        turns: channel::places(count),
        count,
        now: head.now,
        decay_samples,
        speed,
        note,
        stop,
        fresh: false,
        found: false,
        unfinished: false,
    }
}

#[tactic(auto, unfolding(crate::specs::Changes::pass_of))]
fn pass_of(change: Change, head: Head, count: usize) -> Pass
    ensures { result ≡ pass_of change head count }
{
    match change {
        Change::Start { .. } => start_pass(count, head),
        Change::Stop { params, note } => going(count, head, note, true, params.decay_samples, 0.0),
        Change::Speed { note, speed } => going(count, head, note, false, 0, speed),
        Change::Head(_) => asking(0, count, head),
        Change::Reset => asking(0, 0, head),
    }
}

// Whether the voice is changed: the first with the note that a stop finds unfinished, each with the note otherwise.
#[tactic(auto, unfolding(crate::specs::Changes::hits_of))]
fn hits(p: Pass, v: Voice) -> bool
    ensures { result ≡ hits_of p v }
{
    chosen(v.note == p.note, p.stop, p.found, v.finished)
}

fn chosen(same: bool, stop: bool, found: bool, finished: bool) -> bool
    ensures { result ≡ (same && (not stop || (not found && not finished))) }
{
    same & (!stop | (!found & !finished))
}

#[tactic(auto, unfolding(crate::specs::Changes::remade_of))]
fn remade(p: Pass, v: Voice) -> Voice
    ensures { result ≡ remade_of p v }
{
    if p.stop {
        v.finish(p.now, p.decay_samples)
    } else {
        v.at_speed(p.speed)
    }
}

fn either(before: bool, hit: bool) -> bool
    ensures { result ≡ (before || hit) }
{
    before | hit
}

fn or_left(before: bool, hit: bool, finished: bool) -> bool
    ensures { result ≡ (before || (not hit && not finished)) }
{
    before | (!hit & !finished)
}

// What is known once the voice has been gone through.
#[tactic(auto, unfolding(crate::specs::Changes::passed_of))]
fn passed(p: Pass, v: Voice, hit: bool) -> Pass
    ensures { result ≡ passed_of p v hit }
{
    Pass {
        turns: p.turns,
        count: p.count,
        now: p.now,
        decay_samples: p.decay_samples,
        speed: p.speed,
        note: p.note,
        stop: p.stop,
        fresh: p.fresh,
        found: either(p.found, hit),
        unfinished: or_left(p.unfinished, hit, v.finished),
    }
}

// The voice that a start stores.
#[tactic(auto, unfolding(crate::specs::Changes::started_voice))]
fn opened(change: Change, head: Head) -> Voice
    ensures { result ≡ started_voice change head }
{
    match change {
        Change::Start {
            params,
            position,
            note,
            velocity,
        } => Voice::new(params, position, note, velocity, head.moment()),
        Change::Stop { .. } => Voice::blank(),
        Change::Speed { .. } => Voice::blank(),
        Change::Head(_) => Voice::blank(),
        Change::Reset => Voice::blank(),
    }
}

// A ramp of pass-through that begins at a change: to which state, and over how many samples.
#[derive(Clone, Copy)]
pub struct Passing {
    pub on: bool,
    pub samples: usize,
}

// A ramp begins if it is asked for, and pass-through is not yet as wanted.
#[tactic(auto, unfolding(crate::specs::Changes::passing_if))]
fn passing_if(asked: bool, head: Head, params: Params, unfinished: bool) -> Option<Passing>
    ensures { result ≡ passing_if asked head params unfinished }
{
    let on = channel::passes(params, unfinished);
    if asked & !(on == head.passthru_on) {
        return Some(Passing {
            on,
            samples: channel::ramp_samples(params, on),
        });
    }
    None
}

// Pass-through follows a start on a recording, and a stop that found its voice.
#[tactic(auto, unfolding(crate::specs::Changes::passing_of))]
fn passing_of(p: Pass, change: Change, head: Head) -> Option<Passing>
    ensures { result ≡ passing_of p change head }
{
    match change {
        Change::Start { params, .. } => passing_if(head.data_len != 0, head, params, p.unfinished),
        Change::Stop { params, .. } => passing_if(p.found, head, params, p.unfinished),
        Change::Speed { .. } => None,
        Change::Head(_) => None,
        Change::Reset => None,
    }
}

// The head at the end, but for pass-through.
#[tactic(auto, unfolding(crate::specs::Changes::altered_of))]
fn altered(change: Change, head: Head, aside: Aside) -> Head
    ensures { result ≡ altered_of change head aside }
{
    match change {
        Change::Start { .. } => head,
        Change::Stop { .. } => head,
        Change::Speed { .. } => head,
        Change::Head(change) => head.changed(
            change,
            channel::finds(change, aside.several, aside.entry, aside.behind),
        ),
        Change::Reset => Head::new(0.0, head.interpolates),
    }
}

#[tactic(auto, unfolding(crate::specs::Changes::handled_by))]
fn handled(passing: Option<Passing>, head: Head) -> Head
    ensures { result ≡ handled_by passing head }
{
    match passing {
        Some(q) => head.ramped(q.on, q.samples),
        None => head,
    }
}

// The head at the end.
fn ended(p: Pass, change: Change, head: Head, aside: Aside) -> Head
    ensures { result ≡ head_ended p change head aside }
{
    ending(p, change, head, aside).copied()
}

// Pass-through is handled in one place: a start and a stop that did so each in theirs would take stack.
fn ending(p: Pass, change: Change, head: Head, aside: Aside) -> Head
    ensures { result ≡ head_ended p change head aside }
{
    let q = passing_of(p, change, head);
    handled(q, altered(change, head, aside))
}

// What is read of the table before a change: the entry of the number that it names, whether it counts, and how far the
// phrases reach that aren't chosen.
#[derive(Clone, Copy)]
pub struct Aside {
    pub entry: Phrase,
    pub several: bool,
    pub behind: usize,
}

fn aside_of(entry: Phrase, several: bool, b: Beside) -> Aside
    ensures { result ≡ aside_of entry several b }
{
    Aside {
        entry,
        several,
        behind: b.behind,
    }
}

// Makes the change of a lent channel, with no channel copied.
pub fn change(c: &mut Channel, change: Change)
    ensures { c.new ≡ changed_of change c.old }
{
    let mut p = pass_of(change, c.head, c.count);
    let n = p.turns;
    for i in 0..n {
        let v = c.voices[i];
        let hit = hits(p, v);
        if hit {
            let w = remade(p, v);
            c.voices[i] = w;
        }
        p = passed(p, v, hit);
    }
    if p.fresh {
        let at = c.count;
        let w = opened(change, c.head);
        c.voices[at] = w;
    }
    c.count = p.count;
    let aside = aside_of(
        c.table[channel::place_of(channel::names(change))],
        c.several,
        lent_channel::beside(c, 0),
    );
    let e = channel::entry_of(change, c.head, aside.several, aside.entry);
    if e.clears {
        c.table = phrases::none();
    }
    c.table[e.place] = e.phrase;
    c.several = e.several;
    c.head = ended(p, change, c.head, aside);
}

// Where the phrases of a channel stand: the table, and the head, which has the chosen one's place.
#[derive(Clone, Copy)]
pub struct Laid {
    pub table: [Phrase; 8],
    pub head: Head,
}

// All eight phrases, by their numbers.
fn all_of(table: [Phrase; 8], several: bool, head: Head) -> [Phrase; 8]
    ensures { result ≡ phrases_by table several head }
{
    let others = phrases::others(table, several, head.chosen);
    phrases::with(others, head.chosen, head.recording())
}

// Table and head, the phrases being where they stand in `all`.
#[tactic(auto, unfolding(crate::specs::Laying::laid_of))]
fn laid_of(table: [Phrase; 8], several: bool, head: Head, all: [Phrase; 8]) -> Laid
    ensures { result ≡ laid_of table several head all }
{
    let own = all[channel::place_of(head.chosen)];
    let mut after = head;
    after.start = own.start;
    if several {
        Laid {
            table: all,
            head: after,
        }
    } else {
        Laid { table, head: after }
    }
}

// The phrases moved down in the part of the memory from `start` to `end`.
fn gathered(
    table: [Phrase; 8],
    several: bool,
    head: Head,
    memory: &mut [u32],
    start: usize,
    end: usize,
) -> Laid
    requires { (start ≤ end) × (end ≤ length memory.old) }
    ensures { (result ≡ laid_of table several head (gathering_of (phrases_by table several head)
        (take (end - start) (drop start memory.old))).phrases)
        × (memory.new ≡ take start memory.old ++ ((gathering_of (phrases_by table several head)
        (take (end - start) (drop start memory.old))).memory
        ++ drop (end - start) (drop start memory.old))) }
{
    let all = all_of(table, several, head);
    let moved = phrases::gather(all, &mut memory[start..end]);
    laid_of(table, several, head, moved)
}

// Moves the phrases of a lent channel down in its part of the memory, with no channel copied.
pub fn gather(c: &mut Channel, memory: &mut [u32], start: usize, end: usize)
    requires { (start ≤ end) × (end ≤ length memory.old) }
    ensures { (c.new
        ≡ gathered_in c.old (take (end - start) (drop start memory.old)))
        × (memory.new ≡ take start memory.old ++ (gathered_memory c.old
        (take (end - start) (drop start memory.old))
        ++ drop (end - start) (drop start memory.old))) }
{
    let l = gathered(c.table, c.several, c.head, memory, start, end);
    // By a variable: an array stored from a field straight is not covered.
    let table = l.table;
    c.table = table;
    c.head = l.head;
}
