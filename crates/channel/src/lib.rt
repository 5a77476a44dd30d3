// One channel: up to 32 voices over a recording in lent memory. Each function takes every value of its arguments, and
// equals a definition in specs/. Those that begin with `with_` are the calls that the Rust's channel has too (a start,
// a stop, a note's speed, a sample): they refuse nothing, and are for records that are known to be good. The sampler's
// calls, under the Rust's names, refuse first. A sample is its 32-bit pattern, and `data` is the channel's part of the
// lent memory.
#![tactic(auto)]

ghost use Rattle.std.specs.Prelude.{◌≡◌, ◌+◌, ◌-◌, ◌≤◌, ◌<◌, min, cond, ltb, length};
ghost use Rattle.binary32.specs.Leaves.{bits_of, zero32, one32};
ghost use Rattle.volume.specs.Levels.{toward_of};
ghost use Rattle.recorder.specs.Recording.{recorded_of, data_after, is_recording_of};
ghost use Rattle.voice.specs.Voices.{should_remove_of};
ghost use Rattle.channel.specs.Heads.{
  next_time,
  recording_in,
  phrase_by,
  begins_at,
  written_in,
  holds_of,
  head_of,
  moment_on,
  moment_of,
  phrase_after,
  recorder_after,
  interpolates_after,
  chosen_after,
  head_changed_of,
  clocked_of,
  passes_of,
  with_recorded,
  with_passthru,
  ramp_of,
  passthru_of,
  rests_of,
  mixed_of,
  closed_of,
  good_head,
};
ghost use Rattle.channel.specs.Tables.{
  place_of,
  good_table,
  head_names,
  names_of,
  found_by,
  entry_kept,
  head_entry,
  entry_stored,
  head_asks,
  asks_of,
  leaving_of,
  against_by,
};
ghost use Rattle.channel.specs.Channels.{
  live,
  others_in,
  phrases_in,
  phrase_at,
  beside_in,
  begins_in,
  uses_of,
  against_of,
  head_changed_in,
  gathered_in,
  gathered_memory,
  any_unfinished_of,
  channel_of,
  reset_of,
  handled_of,
  pushed_of,
  start_playing_of,
  wanted_of,
  find_of,
  finished_at_of,
  stop_playing_of,
  sped_of,
  set_note_speed_of,
  start_recording_of,
  stop_recording_of,
  added_of,
  played_of,
  turning_by,
  turning_at,
  turned_of,
  turning_in,
  taken_of,
  memory_of,
  process_sample_of,
  changed_of,
  good_voices_of,
  good_channel,
};

use common_types::{InitParams, Note, Params};
use phrases::{Beside, Phrase, Room};
use recorder::{Recorded, Recorder};
use voice::{Moment, Tick, Voice};
use volume::Volume;

// The clock's end: a sample then is refused.
pub const LAST_TIME: usize = 0x1_0000_0000_0000;

// What of a channel is not its voices and not its table. It holds the enums, and is stored whole. The recording is the
// phrase of the number `chosen`: `data_len` samples from `start` on.
#[derive(Clone, Copy)]
pub struct Head {
    pub now: usize,
    pub data_len: usize,
    pub start: usize,
    pub passthru_volume: Volume,
    pub recorder: Recorder,
    pub passthru_on: bool,
    pub interpolates: bool,
    pub chosen: u8,
}

// The voices are the first `count` of the 32. The table has the phrases that aren't chosen; all of them are empty unless
// there are several, and then it isn't looked at. The chosen one's entry never is.
#[derive(Clone, Copy)]
pub struct Channel {
    pub voices: [Voice; 32],
    pub table: [Phrase; 8],
    pub count: usize,
    pub head: Head,
    pub several: bool,
}

// What a sample leaves and what is heard of it, and how many voices moved up as others left.
#[derive(Clone, Copy)]
pub struct Played {
    pub channel: Channel,
    pub output: f32,
    pub moved: u8,
}

// What a call other than a sample does to each channel.
#[derive(Clone, Copy)]
pub enum Change {
    Start {
        params: Params,
        position: f32,
        note: Note,
        velocity: f32,
    },
    Stop {
        params: Params,
        note: Note,
    },
    Speed {
        note: Note,
        speed: f32,
    },
    Head(HeadChange),
    Reset,
}

// A change that touches no voice.
#[derive(Clone, Copy)]
pub enum HeadChange {
    StartRecording,
    StopRecording,
    Interpolate(bool),
    Load(usize),
    Choose(u8),
    Delete(u8),
}

// What a change stores in the table: one entry at a place, all others emptied before it if it clears.
#[derive(Clone, Copy)]
pub struct Entry {
    pub place: usize,
    pub phrase: Phrase,
    pub clears: bool,
    pub several: bool,
}

// What a channel has against a change: something in its way, or too little room.
#[derive(Clone, Copy)]
pub struct Against {
    pub blocked: bool,
    pub short: bool,
}

impl Head {
    #[tactic(auto, unfolding(crate::specs::Heads::head_of))]
    pub fn new(level: f32, interpolates: bool) -> Self
        ensures { result ≡ head_of level interpolates }
    {
        Self {
            now: 0,
            data_len: 0,
            start: 0,
            passthru_volume: Volume::new(level),
            recorder: Recorder::new(),
            passthru_on: false,
            interpolates,
            chosen: 0,
        }
    }

    fn with_recorded(self, r: Recorded) -> Self
        ensures { result ≡ with_recorded r self }
    {
        let volume = self.passthru_volume;
        let recorder = r.recorder;
        Self {
            now: self.now,
            data_len: r.data_len,
            start: self.start,
            passthru_volume: volume.copied(),
            recorder,
            passthru_on: self.passthru_on,
            interpolates: self.interpolates,
            chosen: self.chosen,
        }
    }

    // Where a recording that starts begins: one that is empty behind the other phrases.
    #[tactic(auto, unfolding(crate::specs::Heads::begins_at))]
    pub fn begins(self, behind: usize) -> usize
        ensures { result ≡ begins_at behind self }
    {
        if (self.data_len == 0) & !self.is_recording() {
            behind
        } else {
            self.start
        }
    }

    // The chosen phrase after a change that finds this of the others: the one that is chosen next, or where they end.
    #[tactic(auto, unfolding(crate::specs::Heads::phrase_after))]
    fn phrase_after(self, change: HeadChange, found: Phrase) -> Phrase
        ensures { result ≡ phrase_after change found self }
    {
        match change {
            HeadChange::StartRecording => Phrase {
                start: self.begins(found.start),
                length: self.data_len,
            },
            HeadChange::StopRecording => {
                Phrase {
                    start: self.start,
                    length: self.recorder.stop(self.data_len).data_len,
                }
            }
            HeadChange::Interpolate(_) => self.recording(),
            HeadChange::Load(samples) => Phrase {
                start: self.begins(found.start),
                length: samples,
            },
            HeadChange::Choose(k) => {
                if k == self.chosen {
                    return self.recording();
                }
                found
            }
            HeadChange::Delete(k) => {
                if k == self.chosen {
                    return Phrase::empty(self.start);
                }
                self.recording()
            }
        }
    }

    #[tactic(auto, unfolding(crate::specs::Heads::recorder_after))]
    fn recorder_after(self, change: HeadChange) -> Recorder
        ensures { result ≡ recorder_after change self }
    {
        let recorder = self.recorder;
        match change {
            HeadChange::StartRecording => recorder.start(),
            HeadChange::StopRecording => { recorder.stop(self.data_len).recorder }
            HeadChange::Interpolate(_) => recorder,
            HeadChange::Load(_) => recorder,
            HeadChange::Choose(_) => recorder,
            HeadChange::Delete(_) => recorder,
        }
    }

    #[tactic(auto, unfolding(crate::specs::Heads::head_changed_of))]
    pub fn changed(self, change: HeadChange, found: Phrase) -> Self
        ensures { result ≡ head_changed_of change found self }
    {
        let phrase = self.phrase_after(change, found);
        let recorder = self.recorder_after(change);
        let volume = self.passthru_volume;
        Self {
            now: self.now,
            data_len: phrase.length,
            start: phrase.start,
            passthru_volume: volume.copied(),
            recorder: recorder.copied(),
            passthru_on: self.passthru_on,
            interpolates: interpolates_after(change, self.interpolates),
            chosen: chosen_after(change, self.chosen),
        }
    }

    // The head once the sample has been recorded.
    pub fn recorded(self, input: f32, data: &mut [u32]) -> Self
        ensures value { result ≡ with_recorded (recorded_of self.recorder self.data_len (length «data».old)) self }
        ensures data_after { «data».new ≡ data_after self.recorder (bits_of input) «data».old }
    {
        let sample = binary32::to_bits(input);
        self.with_recorded(self.recorder.with_sample(sample, data, self.data_len))
    }

    // What is heard: the voices' sum, and the input at its level.
    pub fn mixed(self, input: f32, played: f32) -> f32
        ensures { result ≡ mixed_of input played self }
    {
        0.0 + played + input * self.passthru_volume.level(self.now)
    }

    fn with_passthru(self, on: bool, volume: Volume) -> Self
        ensures { result ≡ with_passthru on volume self }
    {
        let recorder = self.recorder;
        Self {
            now: self.now,
            data_len: self.data_len,
            start: self.start,
            passthru_volume: volume,
            recorder,
            passthru_on: on,
            interpolates: self.interpolates,
            chosen: self.chosen,
        }
    }

    // The input passes while it is asked for and no voice is unfinished. A change of that begins a ramp.
    #[tactic(auto, unfolding(crate::specs::Heads::passthru_of))]
    pub fn handle_passthru(self, params: Params, unfinished: bool) -> Self
        ensures { result ≡ passthru_of params unfinished self }
    {
        let wanted = passes(params, unfinished);
        if wanted == self.passthru_on {
            return self;
        }
        self.with_passthru(wanted, ramp(self.passthru_volume, self.now, params, wanted))
    }

    // A ramp of pass-through to that state begins, over so many samples.
    pub fn ramped(self, on: bool, samples: usize) -> Self
        ensures { result
            ≡ with_passthru on (toward_of self.passthru_volume self.now samples (cond on one32 zero32)) self }
    {
        self.with_passthru(on, self.passthru_volume.toward(self.now, samples, full(on)))
    }

    // The end of a sample: the level's step, the change of state, and the clock.
    #[tactic(auto, unfolding(crate::specs::Heads::closed_of, crate::specs::Heads::passthru_of))]
    pub fn closed(self, params: Params, unfinished: bool) -> Self
        ensures { result ≡ closed_of params unfinished self }
    {
        let stepped = self.passthru_volume.stepped(self.now);
        let wanted = passes(params, unfinished);
        if wanted == self.passthru_on {
            return self.after(self.passthru_on, stepped);
        }
        self.after(wanted, ramp(stepped, self.now, params, wanted))
    }

    // The head a sample later, with pass-through at that state and level.
    fn after(self, on: bool, volume: Volume) -> Self
        ensures { result ≡ clocked_of (with_passthru on volume self) }
    {
        let recorder = self.recorder;
        Self {
            now: next_time(self.now),
            data_len: self.data_len,
            start: self.start,
            passthru_volume: volume.copied(),
            recorder: recorder.copied(),
            passthru_on: on,
            interpolates: self.interpolates,
            chosen: self.chosen,
        }
    }

    // Whether the end of a sample, with pass-through wanted so, changes nothing but the clock.
    #[tactic(auto, unfolding(crate::specs::Heads::rests_of))]
    pub fn rests(self, wanted: bool) -> bool
        ensures { result ≡ rests_of wanted self }
    {
        self.passthru_volume.is_static() & (wanted == self.passthru_on)
    }

    // A copy made field by field, as `Volume::copied` is.
    pub fn copied(self) -> Self
        ensures { result ≡ self }
    {
        let volume = self.passthru_volume;
        let recorder = self.recorder;
        Self {
            now: self.now,
            data_len: self.data_len,
            start: self.start,
            passthru_volume: volume.copied(),
            recorder: recorder.copied(),
            passthru_on: self.passthru_on,
            interpolates: self.interpolates,
            chosen: self.chosen,
        }
    }

    pub fn is_recording(self) -> bool
        ensures { result ≡ is_recording_of self.recorder }
    {
        self.recorder.is_recording()
    }

    // The recording: the phrase that is chosen.
    pub fn recording(self) -> Phrase
        ensures { result ≡ recording_in self }
    {
        Phrase {
            start: self.start,
            length: self.data_len,
        }
    }

    // The phrase of that number, by its entry of the table.
    #[tactic(auto, unfolding(crate::specs::Heads::phrase_by))]
    pub fn phrase_by(self, k: u8, several: bool, entry: Phrase) -> Phrase
        ensures { result ≡ phrase_by self k several entry }
    {
        if k == self.chosen {
            return self.recording();
        }
        if several & (k < 8) {
            return entry;
        }
        Phrase::none()
    }

    // What the voices of a phrase go by that has so many samples.
    pub fn moment_on(self, phrase: u8, length: usize) -> Moment
        ensures { result ≡ moment_on self phrase length }
    {
        Moment {
            now: self.now,
            data_len: length,
            interpolates: self.interpolates,
            phrase,
        }
    }

    // What those go by that start now.
    pub fn moment(self) -> Moment
        ensures { result ≡ moment_of self }
    {
        self.moment_on(self.chosen, self.data_len)
    }

    // The part of a memory of that size that the recorder writes to, where the other phrases reach so far: from the
    // recording's start on if it is behind them, else its own.
    #[tactic(auto, unfolding(crate::specs::Heads::written_in))]
    pub fn room(self, behind: usize, size: usize) -> Room
        ensures value { result ≡ written_in behind self size }
        ensures from_le_to { (result.from ≤ result.to) × (result.to ≤ size) }
    {
        if behind <= self.start {
            return Room {
                from: self.start.min(size),
                to: size,
            };
        }
        self.recording().room(size)
    }

    // How many samples the recording may have without another phrase in its way.
    #[tactic(auto, unfolding(crate::specs::Heads::holds_of))]
    fn holds(self, b: Beside, capacity: usize) -> usize
        ensures { result ≡ holds_of b capacity self }
    {
        if self.data_len == 0 {
            return capacity.saturating_sub(b.behind);
        }
        b.next.saturating_sub(self.start)
    }

    #[tactic(auto, unfolding(crate::specs::Heads::good_head))]
    pub fn good(self, capacity: usize) -> bool
        ensures { result ≡ good_head capacity self }
    {
        if (LAST_TIME < self.now) | (8 <= self.chosen) | !self.recording().ends_by(capacity) {
            return false;
        }
        self.passthru_volume.good(self.now) && self.recorder.good(self.data_len, capacity)
    }
}

// What the rows of a change ask of each channel: room for one more voice, for so many samples, that another phrase may be
// chosen, that one may be deleted, or nothing.
#[derive(Clone, Copy)]
pub enum Ask {
    Voice,
    Samples(usize),
    Choice(u8),
    Delete(u8),
    Nothing,
}

#[tactic(auto, unfolding(crate::specs::Tables::head_asks))]
fn head_asks(change: HeadChange) -> Ask
    ensures { result ≡ head_asks change }
{
    match change {
        HeadChange::StartRecording => Ask::Nothing,
        HeadChange::StopRecording => Ask::Nothing,
        HeadChange::Interpolate(_) => Ask::Nothing,
        HeadChange::Load(samples) => Ask::Samples(samples),
        HeadChange::Choose(k) => Ask::Choice(k),
        HeadChange::Delete(k) => Ask::Delete(k),
    }
}

#[tactic(auto, unfolding(crate::specs::Tables::asks_of))]
pub fn asks(change: Change) -> Ask
    ensures { result ≡ asks_of change }
{
    match change {
        Change::Start { .. } => Ask::Voice,
        Change::Stop { .. } => Ask::Nothing,
        Change::Speed { .. } => Ask::Nothing,
        Change::Head(change) => head_asks(change),
        Change::Reset => Ask::Nothing,
    }
}

// What a channel of so many voices has against that; `used` says that one has the phrase that is asked for.
#[tactic(auto, unfolding(crate::specs::Tables::against_by, crate::specs::Tables::blocked_by, crate::specs::Tables::short_by,))]
pub fn held_against(
    ask: Ask,
    head: Head,
    count: usize,
    used: bool,
    b: Beside,
    capacity: usize,
) -> Against
    ensures { result ≡ against_by ask head count used b capacity }
{
    let blocked = match ask {
        Ask::Voice => (head.data_len != 0) & (32 <= count),
        Ask::Samples(_) => head.is_recording(),
        Ask::Choice(k) => head.is_recording() & (k != head.chosen),
        Ask::Delete(k) => used | (head.is_recording() & (k == head.chosen)),
        Ask::Nothing => false,
    };
    let short = match ask {
        Ask::Voice => false,
        Ask::Samples(samples) => head.holds(b, capacity) < samples,
        Ask::Choice(_) => false,
        Ask::Delete(_) => false,
        Ask::Nothing => false,
    };
    Against { blocked, short }
}

// The number of the phrase that is to be deleted, if one is.
#[tactic(auto, unfolding(crate::specs::Tables::leaving_of))]
pub fn leaving(ask: Ask) -> Option<u8>
    ensures { result ≡ leaving_of ask }
{
    match ask {
        Ask::Voice => None,
        Ask::Samples(_) => None,
        Ask::Choice(_) => None,
        Ask::Delete(k) => Some(k),
        Ask::Nothing => None,
    }
}

// The place in the table of the phrase of that number; past the last it is the last.
pub fn place_of(k: u8) -> usize
    ensures value { result ≡ place_of k }
    ensures upper_bound { result < 8 }
{
    if k < 8 { k as usize } else { 7 }
}

#[tactic(auto, unfolding(crate::specs::Tables::head_names))]
fn head_names(change: HeadChange) -> u8
    ensures { result ≡ head_names change }
{
    match change {
        HeadChange::StartRecording => 0,
        HeadChange::StopRecording => 0,
        HeadChange::Interpolate(_) => 0,
        HeadChange::Load(_) => 0,
        HeadChange::Choose(k) => k,
        HeadChange::Delete(k) => k,
    }
}

// The number of the phrase that a change names; 0 where it names none. No Option: `head_entry` stores the entry that was
// looked at again, so one is looked at for each change, and 0 is its place.
#[tactic(auto, unfolding(crate::specs::Tables::names_of))]
pub fn names(change: Change) -> u8
    ensures { result ≡ names_of change }
{
    match change {
        Change::Start { .. } => 0,
        Change::Stop { .. } => 0,
        Change::Speed { .. } => 0,
        Change::Head(change) => head_names(change),
        Change::Reset => 0,
    }
}

// What a change of heads finds of the other phrases, of which `entry` is the one it names.
#[tactic(auto, unfolding(crate::specs::Tables::found_by))]
pub fn finds(change: HeadChange, several: bool, entry: Phrase, behind: usize) -> Phrase
    ensures { result ≡ found_by change several entry behind }
{
    match change {
        HeadChange::StartRecording => Phrase::empty(behind),
        HeadChange::StopRecording => Phrase::none(),
        HeadChange::Interpolate(_) => Phrase::none(),
        HeadChange::Load(_) => Phrase::empty(behind),
        HeadChange::Choose(k) => {
            if several & (k < 8) {
                return entry;
            }
            Phrase::none()
        }
        HeadChange::Delete(_) => Phrase::none(),
    }
}

// The table as it is.
fn as_is(several: bool, place: usize, entry: Phrase) -> Entry
    ensures { result ≡ entry_kept several place entry }
{
    Entry {
        place,
        phrase: entry,
        clears: false,
        several,
    }
}

#[tactic(auto, unfolding(crate::specs::Tables::head_entry))]
fn head_entry(change: HeadChange, head: Head, several: bool, entry: Phrase) -> Entry
    ensures { result ≡ head_entry change head several entry }
{
    match change {
        HeadChange::StartRecording => as_is(several, 0, entry),
        HeadChange::StopRecording => as_is(several, 0, entry),
        HeadChange::Interpolate(_) => as_is(several, 0, entry),
        HeadChange::Load(_) => as_is(several, 0, entry),
        HeadChange::Choose(k) => {
            if (k == head.chosen) | (8 <= head.chosen) {
                return as_is(several, place_of(k), entry);
            }
            Entry {
                place: place_of(head.chosen),
                phrase: head.recording(),
                clears: !several,
                several: true,
            }
        }
        HeadChange::Delete(k) => {
            if 8 <= k {
                return as_is(several, place_of(k), entry);
            }
            as_is(several, place_of(k), Phrase::empty(entry.start))
        }
    }
}

// What a change stores in the table, where `entry` is the one of the number that it names.
#[tactic(auto, unfolding(crate::specs::Tables::entry_stored))]
pub fn entry_of(change: Change, head: Head, several: bool, entry: Phrase) -> Entry
    ensures value { result ≡ entry_stored change head several entry }
    ensures place_bound { result.place < 8 }
{
    match change {
        Change::Start { .. } => as_is(several, 0, entry),
        Change::Stop { .. } => as_is(several, 0, entry),
        Change::Speed { .. } => as_is(several, 0, entry),
        Change::Head(change) => head_entry(change, head, several, entry),
        Change::Reset => as_is(false, 0, entry),
    }
}

#[tactic(auto, unfolding(crate::specs::Heads::interpolates_after))]
fn interpolates_after(change: HeadChange, on: bool) -> bool
    ensures { result ≡ interpolates_after change on }
{
    match change {
        HeadChange::StartRecording => on,
        HeadChange::StopRecording => on,
        HeadChange::Interpolate(new) => new,
        HeadChange::Load(_) => on,
        HeadChange::Choose(_) => on,
        HeadChange::Delete(_) => on,
    }
}

#[tactic(auto, unfolding(crate::specs::Heads::chosen_after))]
fn chosen_after(change: HeadChange, chosen: u8) -> u8
    ensures { result ≡ chosen_after change chosen }
{
    match change {
        HeadChange::StartRecording => chosen,
        HeadChange::StopRecording => chosen,
        HeadChange::Interpolate(_) => chosen,
        HeadChange::Load(_) => chosen,
        HeadChange::Choose(k) => k,
        HeadChange::Delete(_) => chosen,
    }
}

pub fn passes(params: Params, unfinished: bool) -> bool
    ensures { result ≡ passes_of params unfinished }
{
    params.auto_passthru & !unfinished
}

#[tactic(auto, unfolding(crate::specs::Heads::ramp_of))]
fn ramp(volume: Volume, now: usize, params: Params, wanted: bool) -> Volume
    ensures { result ≡ ramp_of volume now params wanted }
{
    volume.toward(now, ramp_samples(params, wanted), full(wanted))
}

// How many samples a ramp of pass-through to that state takes.
pub fn ramp_samples(params: Params, on: bool) -> usize
    ensures { result ≡ cond on params.attack_samples params.decay_samples }
{
    if on {
        params.attack_samples
    } else {
        params.decay_samples
    }
}

// The level of pass-through in that state.
fn full(on: bool) -> f32
    ensures { result ≡ cond on one32 zero32 }
{
    if on { 1.0 } else { 0.0 }
}

// Whether the phrases of a table lie within the capacity, and no two have a sample in common.
#[tactic(auto, unfolding(crate::specs::Tables::good_table))]
pub fn good_table(head: Head, several: bool, table: [Phrase; 8], capacity: usize) -> bool
    ensures { result ≡ good_table capacity head several table }
{
    if !several {
        return true;
    }
    phrases::good(
        phrases::with(table, head.chosen, head.recording()),
        capacity,
    )
}

#[tactic(auto, unfolding(crate::specs::Heads::next_time))]
pub fn next_time(now: usize) -> usize
    ensures { result ≡ next_time now }
{
    if now < LAST_TIME { now + 1 } else { now }
}

#[tactic(auto, unfolding(crate::specs::Channels::wanted_of))]
pub fn wanted(v: Voice, note: Note) -> bool
    ensures { result ≡ wanted_of note v }
{
    (v.note == note) & !v.finished
}

// How many places there are to walk: the count, and never more than the array has.
pub fn places(count: usize) -> usize
    ensures { result ≡ min count 32 }
{
    count.min(32)
}

impl Channel {
    #[tactic(auto, unfolding(crate::specs::Channels::channel_of))]
    pub fn new(params: InitParams) -> Self
        ensures { result ≡ channel_of params }
    {
        Self {
            voices: [Voice::blank(); 32],
            table: phrases::none(),
            count: 0,
            head: Head::new(full(params.auto_passthru), false),
            several: false,
        }
    }

    // The phrases that aren't chosen, by their numbers.
    fn others(self) -> [Phrase; 8]
        ensures { result ≡ others_in self }
    {
        phrases::others(self.table, self.several, self.head.chosen)
    }

    // The phrase of that number.
    pub fn phrase_at(self, k: u8) -> Phrase
        ensures { result ≡ phrase_at self k }
    {
        self.head
            .phrase_by(k, self.several, self.table[place_of(k)])
    }

    fn beside(self, capacity: usize) -> Beside
        ensures { result ≡ beside_in capacity self }
    {
        phrases::around(self.others(), self.head.start, capacity)
    }

    fn good_phrases(self, capacity: usize) -> bool
        ensures { result ≡ good_table capacity self.head self.several self.table }
    {
        good_table(self.head, self.several, self.table, capacity)
    }

    // The voices that there are.
    #[tactic(auto, using(walks::proofs::Lists::Loops::take_most))]
    pub fn live(&self) -> &[Voice]
        ensures { result.now ≡ live self.now }
    {
        &self.voices[..places(self.count)]
    }

    // Whether a voice has the phrase of that number.
    #[tactic(auto, unfolding(crate::specs::Channels::uses_of))]
    fn uses(self, k: u8) -> bool
        ensures { result ≡ uses_of k self }
    {
        self.live().iter().any(|v| v.phrase == k)
    }

    // What the channel has against what a change asks, in a record of that capacity.
    pub fn against(self, ask: Ask, capacity: usize) -> Against
        ensures { result ≡ against_of capacity ask self }
    {
        let used = leaving(ask).is_some_and(|k| self.uses(k));
        let b = self.beside(capacity);
        held_against(ask, self.head, self.count, used, b, capacity)
    }

    #[tactic(auto, unfolding(crate::specs::Channels::reset_of))]
    pub fn reset(mut self) -> Self
        ensures { result ≡ reset_of self }
    {
        self.count = 0;
        self.several = false;
        self.head = Head::new(0.0, self.head.interpolates);
        self
    }

    #[tactic(auto, unfolding(crate::specs::Channels::any_unfinished_of))]
    fn any_unfinished(self) -> bool
        ensures { result ≡ any_unfinished_of self }
    {
        self.live().iter().any(|v| !v.finished)
    }

    #[tactic(auto, unfolding(crate::specs::Channels::handled_of))]
    fn handle_passthru(mut self, params: Params) -> Self
        ensures { result ≡ handled_of params self }
    {
        let unfinished = self.any_unfinished();
        self.head = self.head.handle_passthru(params, unfinished);
        self
    }

    // One voice more, at the end, where there is a place.
    #[tactic(auto, unfolding(crate::specs::Channels::pushed_of))]
    fn push(mut self, v: Voice) -> Self
        ensures { result ≡ pushed_of v self }
    {
        let n = self.count;
        if 32 <= n {
            return self;
        }
        self.voices[n] = v;
        self.count = n + 1;
        self
    }

    // A channel with no recording takes no voice.
    #[tactic(auto, unfolding(crate::specs::Channels::start_playing_of))]
    pub fn with_start(self, params: Params, position: f32, note: Note, velocity: f32) -> Self
        ensures { result ≡ start_playing_of params position note velocity self }
    {
        if self.head.data_len == 0 {
            return self;
        }
        let v = Voice::new(params, position, note, velocity, self.head.moment());
        self.push(v).handle_passthru(params)
    }

    // The place of the first unfinished voice with that note. (Document 01 asks for this form.)
    #[tactic(auto, unfolding(crate::specs::Channels::find_of), using(std::proofs::lemmas::List::at_drop_more, std::proofs::lemmas::List::at_drop_all))]
    fn find(self, note: Note) -> Option<usize>
        ensures { result ≡ find_of note self }
    {
        let voices = self.live();
        let mut i = 0;
        loop {
            if voices.len() <= i {
                break None;
            }
            if wanted(voices[i], note) {
                break Some(i);
            }
            i += 1;
        }
    }

    fn finish_voice(mut self, params: Params, found: Option<usize>) -> Self
        ensures { result ≡ finished_at_of params self found }
    {
        let Some(i) = found else {
            return self;
        };
        if 32 <= i {
            return self;
        }
        self.voices[i] = self.voices[i].finish(self.head.now, params.decay_samples);
        self.handle_passthru(params)
    }

    #[tactic(auto, unfolding(crate::specs::Channels::stop_playing_of))]
    pub fn with_stop(self, params: Params, note: Note) -> Self
        ensures { result ≡ stop_playing_of params note self }
    {
        let found = self.find(note);
        self.finish_voice(params, found)
    }

    // Every voice with that note, finished or not.
    pub fn with_note_speed(mut self, note: Note, speed: f32) -> Self
        ensures { result ≡ set_note_speed_of note speed self }
    {
        let n = places(self.count);
        for i in 0..n {
            self.voices[i] = sped(self.voices[i], note, speed);
        }
        self
    }

    // All eight phrases, by their numbers.
    fn all(self) -> [Phrase; 8]
        ensures { result ≡ phrases_in self }
    {
        phrases::with(self.others(), self.head.chosen, self.head.recording())
    }

    // Where a recording that is read begins.
    pub fn begins(self) -> usize
        ensures { result ≡ begins_in self }
    {
        self.head.begins(self.beside(0).behind)
    }

    // Moves the phrases down in the channel's part of the memory, so that all free room is behind them.
    pub fn gathered(mut self, data: &mut [u32]) -> Self
        ensures value { result ≡ gathered_in self «data».old }
        ensures data_after { «data».new ≡ gathered_memory self «data».old }
    {
        let all = phrases::gather(self.all(), data);
        self.head.start = all[place_of(self.head.chosen)].start;
        if self.several {
            self.table = all;
        }
        self
    }

    // A change that touches no voice.
    pub fn head_changed(mut self, change: HeadChange) -> Self
        ensures { result ≡ head_changed_in change self }
    {
        let head = self.head;
        let entry = self.table[place_of(head_names(change))];
        let found = finds(change, self.several, entry, self.beside(0).behind);
        let e = head_entry(change, head, self.several, entry);
        if e.clears {
            self.table = phrases::none();
        }
        self.table[e.place] = e.phrase;
        self.several = e.several;
        self.head = head.changed(change, found);
        self
    }

    pub fn start_recording(self) -> Self
        ensures { result ≡ start_recording_of self }
    {
        self.head_changed(HeadChange::StartRecording)
    }

    pub fn stop_recording(self) -> Self
        ensures { result ≡ stop_recording_of self }
    {
        self.head_changed(HeadChange::StopRecording)
    }

    // The channel once the sample has been recorded.
    fn record(mut self, input: f32, data: &mut [u32]) -> Self
        ensures value { result ≡ taken_of «data».old self }
        ensures data_after { «data».new ≡ memory_of input self «data».old }
    {
        let head = self.head;
        let b = self.beside(0);
        let room = head.room(b.behind, data.len());
        self.head = head.recorded(input, &mut data[room.from..room.to]);
        self
    }

    // Each voice takes its turn on its phrase; those that are then to be removed leave, and the others move up in order.
    fn play(mut self, params: Params, data: &[u32]) -> Played
        ensures value { result ≡ played_of (turning_in params self «data».now) self }
        ensures moved_bound { result.moved ≤ 32 }
    {
        let head = self.head;
        let n = places(self.count);
        let mut output = 0.0;
        let mut moved = 0;
        let mut k = 0;
        for i in 0..n {
            let v = self.voices[i];
            let phrase = self.phrase_at(v.phrase);
            let room = phrase.room(data.len());
            let at = head.moment_on(v.phrase, phrase.length);
            let r = take_turn(v, output, at, params, &data[room.from..room.to]);
            output = r.output;
            if r.stays {
                moved = moved_up(moved, k, i);
                self.voices[k] = r.voice;
                k += 1;
            }
        }
        self.count = k;
        Played {
            channel: self,
            output,
            moved,
        }
    }

    pub fn with_sample(self, params: Params, input: f32, data: &mut [u32]) -> Played
        ensures value { result ≡ process_sample_of params input self «data».old }
        ensures data_after { «data».new ≡ memory_of input self «data».old }
        ensures moved_bound { result.moved ≤ 32 }
    {
        let recorded = self.record(input, data);
        let head = recorded.head;
        let played = recorded.play(params, data);
        let output = head.mixed(input, played.output);
        let mut channel = played.channel;
        let unfinished = channel.any_unfinished();
        channel.head = head.closed(params, unfinished);
        Played {
            channel,
            output,
            moved: played.moved,
        }
    }

    #[tactic(auto, unfolding(crate::specs::Channels::changed_of))]
    pub fn changed(self, change: Change) -> Self
        ensures { result ≡ changed_of change self }
    {
        match change {
            Change::Start {
                params,
                position,
                note,
                velocity,
            } => self.with_start(params, position, note, velocity),
            Change::Stop { params, note } => self.with_stop(params, note),
            Change::Speed { note, speed } => self.with_note_speed(note, speed),
            Change::Head(change) => self.head_changed(change),
            Change::Reset => self.reset(),
        }
    }

    #[tactic(auto, unfolding(crate::specs::Channels::good_voices_of))]
    fn good_voices(self) -> bool
        ensures { result ≡ good_voices_of self }
    {
        self.live().iter().all(|v| v.good(self.head.now))
    }

    // Whether the channel may stand in a record of that capacity.
    #[tactic(auto, unfolding(crate::specs::Channels::good_channel))]
    pub fn good(self, capacity: usize) -> bool
        ensures { result ≡ good_channel capacity self }
    {
        if 32 < self.count {
            return false;
        }
        self.head.good(capacity) && self.good_phrases(capacity) && self.good_voices()
    }
}

#[tactic(auto, unfolding(crate::specs::Channels::sped_of))]
pub fn sped(v: Voice, note: Note, speed: f32) -> Voice
    ensures { result ≡ sped_of note speed v }
{
    if v.note == note { v.at_speed(speed) } else { v }
}

// What a voice's turn gives: the voice after it, whether it stays, and the output with what it adds.
#[derive(Clone, Copy)]
pub struct Turned {
    pub voice: Voice,
    pub stays: bool,
    pub output: f32,
}

// The turn of a voice on its phrase; on an empty one it takes none.
fn take_turn(v: Voice, output: f32, at: Moment, params: Params, data: &[u32]) -> Turned
    ensures { result ≡ turned_of (turning_at turning_by params at «data».now) output v }
{
    if at.data_len == 0 {
        return Turned {
            voice: v,
            stays: true,
            output,
        };
    }
    let t = Tick::new(params, at);
    let voice = v.turn(t, data);
    Turned {
        voice,
        stays: !voice.should_remove(t),
        output: sound(output, v, voice, t),
    }
}

// The output with the value of voice `v`, after its turn `w`. One that was to be removed is silent.
#[tactic(auto, unfolding(crate::specs::Channels::added_of))]
pub fn sound(output: f32, v: Voice, w: Voice, t: Tick) -> f32
    ensures { result ≡ added_of (should_remove_of t v) output w.last_sample_value }
{
    if v.should_remove(t) {
        output
    } else {
        output + w.last_sample_value
    }
}

// The voices moved so far, with one more where a voice that is kept goes from place i to a place k before it.
fn moved_up(moved: u8, k: usize, i: usize) -> u8
    requires { moved < 255 }
    ensures { result ≡ cond (ltb k i) (moved + 1) moved }
{
    if k < i { moved + 1 } else { moved }
}
