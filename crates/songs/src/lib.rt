// Plays a song's list on the engine: the starts and stops that are due before a frame are made as calls, in the list's
// order. Each public function equals a definition in specs/Plays.antt, for every value of its arguments.
#![tactic(auto)]

ghost use Rattle.std.specs.Prelude.{◌≡◌, ◌+◌, ◌*◌, ◌%◌, ◌^◌, length, drop};
ghost use Rattle.songs.specs.Plays.{change_by, one_more_refused, cues_of, due_of, play_of};

use channel::Change;
use common_types::{Note, Params};
use refusals::Refusal;
use sampler::Sampler;
use smf::Cue;

// The engine after the calls, the place of the next entry in the list, and how many of the calls were refused.
#[derive(Clone, Copy)]
pub struct Playing {
    pub sampler: Sampler,
    pub next: usize,
    pub refused: usize,
}

// The change that the call of a start or a stop makes: every start is at position 0.
pub fn change_of(cue: Cue, params: Params) -> Change
    ensures { result ≡ change_by cue params }
{
    let note = Note::from(cue.note);
    if cue.starts {
        Change::Start {
            params: params.copied(),
            position: 0.0,
            note,
            velocity: cue.velocity,
        }
    } else {
        Change::Stop {
            params: params.copied(),
            note,
        }
    }
}

// The refused calls, with one more if it is: no list has so many that the count wraps.
pub fn one_more(refused: usize, done: Result<(), Refusal>) -> usize
    ensures { result ≡ one_more_refused refused done % 2 ^ 64 }
{
    if done.is_ok() {
        refused
    } else {
        std::num::wrapping_add_usize(refused, 1)
    }
}

// The place behind the entries that are due at the frame count `at`, from the entry `next` of the list on.
pub fn due(list: &[u64], next: usize, at: u64) -> usize
    ensures { result ≡ next + length (due_of at (cues_of (drop (2 * next) list.now))) }
{
    let entries = list.len() / 2;
    for place in next..entries {
        if at < list[2 * place] {
            return place;
        }
    }
    next.max(entries)
}

// Makes the calls that are due at the frame count `at`, from the entry `next` of the list on. To play a song, call it
// before the frame of each count.
pub fn play(s: Sampler, list: &[u64], next: usize, at: u64, params: Params) -> Playing
    ensures { result ≡ play_of s list.now next at params }
{
    let end = due(list, next, at);
    let mut sampler = s;
    let mut refused: usize = 0;
    for place in next..end {
        let cue = Cue::new(list[2 * place], list[2 * place + 1]);
        let answer = sampler.changed(change_of(cue, params));
        sampler = answer.sampler;
        refused = one_more(refused, answer.done);
    }
    Playing {
        sampler,
        next: end,
        refused,
    }
}
