// The questions, each answered as plain numbers: a count is 0 where the question is refused.
ghost use Rattle.std.specs.Prelude.{◌≡◌, length};
ghost use Rattle.smf.specs.Cues.{counted_judged, list_of};
ghost use Rattle.questions.specs.Questions.{
  get_frames_processed_of,
  get_data_len_of,
  is_recording_of,
  get_last_recorded_offset_of,
  print_error_info_of,
  error_text_after,
  iter_active_notes_of,
  active_notes_after,
};
ghost use Rattle.questions.specs.Lists.{voice_info_counted, voice_info_after};
ghost use Rattle.questions.specs.Waveforms.{get_waveform_summary_of, waveform_after};
ghost use Rattle.recordings.specs.Waves.{write_wave_of, wave_after};
ghost use Rattle.host.specs.Crossing.{refused_by, count_by, told_by, offset_by, summary_by, entries_by};

use common_types::Params;
use questions::{VoiceInfo, WaveformSummary};
use refusals::Refusal;
use sampler::Sampler;
use smf::SongRefusal;

// These structs are the C interface's (host/vusatica.c), with a number for a refusal and 0 for none.
#[derive(Clone, Copy)]
pub struct Count {
    pub count: usize,
    pub number: u8,
}

// A place, with 1 where there is one.
#[derive(Clone, Copy)]
pub struct Offset {
    pub at: usize,
    pub number: u8,
    pub found: u8,
}

// A summary's extremes: 0 where it is refused.
#[derive(Clone, Copy)]
pub struct Summary {
    pub smallest: f32,
    pub largest: f32,
    pub number: u8,
}

fn refused(refusal: Refusal) -> Count
    ensures { result ≡ refused_by refusal }
{
    let number = refusal.number();
    Count { count: 0, number }
}

// Functions, and no `From`: each is named in the contracts of the calls below, and two of them make a `Count`.
fn count_by(counted: Result<usize, Refusal>) -> Count
    ensures { result ≡ count_by counted }
{
    match counted {
        Ok(count) => Count { count, number: 0 },
        Err(refusal) => refused(refusal),
    }
}

// A yes is 1.
fn told_by(told: Result<bool, Refusal>) -> Count
    ensures { result ≡ told_by told }
{
    match told {
        Ok(so) => Count {
            count: if so { 1 } else { 0 },
            number: 0,
        },
        Err(refusal) => refused(refusal),
    }
}

fn offset_by(answer: Result<Option<usize>, Refusal>) -> Offset
    ensures { result ≡ offset_by answer }
{
    match answer {
        Ok(Some(at)) => Offset {
            at,
            number: 0,
            found: 1,
        },
        Ok(None) => Offset {
            at: 0,
            number: 0,
            found: 0,
        },
        Err(refusal) => Offset {
            at: 0,
            number: refusal.number(),
            found: 0,
        },
    }
}

fn summary_by(answer: Result<WaveformSummary, Refusal>) -> Summary
    ensures { result ≡ summary_by answer }
{
    match answer {
        Ok(summary) => Summary {
            smallest: summary.smallest,
            largest: summary.largest,
            number: 0,
        },
        Err(refusal) => Summary {
            smallest: 0.0,
            largest: 0.0,
            number: refusal.number(),
        },
    }
}

// A list that is too short is told how many entries the song has.
#[tactic(auto, unfolding(smf::specs::Cues::cues_number))]
fn entries_by(counted: Result<usize, SongRefusal>) -> Count
    ensures { result ≡ entries_by counted }
{
    match counted {
        Ok(count) => Count { count, number: 0 },
        Err(refusal) => {
            let number = refusal.number();
            match refusal {
                SongRefusal::BadRate => Count { count: 0, number },
                SongRefusal::Faulty(_) => Count { count: 0, number },
                SongRefusal::Short(count) => Count { count, number },
            }
        }
    }
}

pub fn frames_processed(s: &Sampler, channel: usize) -> Count
    ensures { result ≡ count_by (get_frames_processed_of s.now channel) }
{
    count_by(lent_sampler::get_frames_processed(s, channel))
}

pub fn data_length(s: &Sampler, channel: usize) -> Count
    ensures { result ≡ count_by (get_data_len_of s.now channel) }
{
    count_by(lent_sampler::get_data_len(s, channel))
}

pub fn is_recording(s: &Sampler, channel: usize) -> Count
    ensures { result ≡ told_by (is_recording_of s.now channel) }
{
    told_by(lent_sampler::is_recording(s, channel))
}

pub fn last_recorded_offset(s: &Sampler, channel: usize) -> Offset
    ensures { result ≡ offset_by (get_last_recorded_offset_of s.now channel) }
{
    offset_by(lent_sampler::get_last_recorded_offset(s, channel))
}

pub fn error_text(s: &Sampler, channel: usize, text: &mut [u8]) -> Count
    ensures { (result ≡ count_by (print_error_info_of s.now channel (length text.old)))
        × (text.new ≡ error_text_after s.now channel text.old) }
{
    count_by(lent_sampler::print_error_info(s, channel, text))
}

pub fn active_notes(s: &Sampler, channel: usize, notes: &mut [u64]) -> Count
    ensures { (result ≡ count_by (iter_active_notes_of s.now channel (length notes.old)))
        × (notes.new ≡ active_notes_after s.now channel notes.old) }
{
    count_by(lent_sampler::iter_active_notes(s, channel, notes))
}

pub fn voices(s: &Sampler, channel: usize, params: Params, list: &mut [VoiceInfo]) -> Count
    ensures { (result ≡ count_by (voice_info_counted s.now channel params list.old))
        × (list.new ≡ voice_info_after s.now channel params list.old) }
{
    count_by(lent_sampler::get_voice_info(s, channel, params, list))
}

pub fn write_wave(s: &Sampler, rate: u32, memory: &[u32], file: &mut [u8]) -> Count
    ensures { (result
        ≡ count_by (write_wave_of s.now (length file.old) (length memory.now)))
        × (file.new ≡ wave_after s.now rate memory.now file.old) }
{
    count_by(lent_sampler::write_wave(s, rate, memory, file))
}

pub fn waveform(s: &Sampler, columns: usize, values: &mut [f32], memory: &[u32]) -> Summary
    ensures { (result
        ≡ summary_by (get_waveform_summary_of s.now columns (length values.old) memory.now))
        × (values.new
        ≡ waveform_after s.now columns values.old memory.now) }
{
    summary_by(lent_sampler::get_waveform_summary(s, columns, values, memory))
}

pub fn read_song(file: &[u8], rate: u32, list: &mut [u64]) -> Count
    ensures value { result ≡ entries_by (counted_judged file.now rate (length list.old)) }
    ensures list_after { list.new ≡ list_of file.now rate list.old }
{
    entries_by(smf::read_song(file, rate, list))
}
