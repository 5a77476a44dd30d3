// Files of other forms, turned into those that the calls read.
ghost use Rattle.std.specs.Prelude.{◌≡◌, length};
ghost use Rattle.song_merge.specs.Answers.{Answers};
ghost use Rattle.wave_forms.specs.Turns.{turn_answer, output_after};

use song_merge::Merged;
use wave_forms::Turned;

// A song of format 1 as one of format 0. Both lists are overwritten.
pub fn merge_song(file: &[u8], spare: &mut [u8], out: &mut [u8]) -> Merged
    ensures { Answers file.now (length spare.old) out.new result }
{
    song_merge::merge(file, spare, out)
}

// A WAVE file of another form as one of 10/12's.
pub fn turn_wave(file: &[u8], out: &mut [u8]) -> Turned
    ensures value { result ≡ turn_answer file.now (length out.old) }
    ensures out_after { out.new ≡ output_after file.now out.old }
{
    wave_forms::turn(file, out)
}
