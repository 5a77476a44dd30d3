// A song's list played on a record that its host lends: the calls that are due are made where it stands, with the
// definition of the player by value (songs/specs/Plays.antt) in the contract.
#![tactic(auto)]

ghost use Rattle.std.specs.Prelude.{◌≡◌, length, get_or, ◌+◌, ◌*◌, ◌<◌};
ghost use Rattle.smf.specs.Cues.{cue_of};
ghost use Rattle.songs.specs.Plays.{change_by, play_of};

use channel::Change;
use common_types::Params;
use sampler::Sampler;
use smf::Cue;

// The place of the next entry in the list, and how many of the calls were refused.
#[derive(Clone, Copy)]
pub struct Played {
    pub next: usize,
    pub refused: usize,
}

// The change of an entry of the list.
fn change_at(list: &[u64], place: usize, params: Params) -> Change
    requires { 2 * place + 1 < length list.now }
    ensures { result
        ≡ change_by (cue_of (get_or list.now (2 * place) 0) (get_or list.now (2 * place + 1) 0)) params }
{
    songs::change_of(Cue::new(list[2 * place], list[2 * place + 1]), params)
}

// Makes the calls that are due at the frame count `at`, from the entry `next` of the list on, where the record stands.
// To play a song, call it before the frame of each count.
pub fn play(s: &mut Sampler, list: &[u64], next: usize, at: u64, params: Params) -> Played
    ensures { record { sampler = s.new; next = result.next; refused = result.refused }
        ≡ play_of s.old list.now next at params }
{
    let end = songs::due(list, next, at);
    let mut refused = 0;
    for place in next..end {
        let done = lent_sampler::change(s, change_at(list, place, params));
        refused = songs::one_more(refused, done);
    }
    Played { next: end, refused }
}
