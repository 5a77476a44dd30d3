// The recorder: writes incoming samples to the memory that its host lends, and counts what went wrong. A sample is its
// 32-bit pattern. The memory's length is the capacity; data_len is the length of the recording in it. `with_sample`
// takes every write place, also one past the data, and is for recorders that are known to be good.
#![tactic(auto)]

ghost use Rattle.std.specs.Prelude.{◌≡◌, length};
ghost use Rattle.decimal.specs.Lines.{line_of};
ghost use Rattle.recorder.specs.ErrorText.{error_text, print_error_info_of, text_after};
ghost use Rattle.recorder.specs.Recording.{
  raised,
  misused_of,
  new_recorder_of,
  start_of,
  stop_of,
  recorded_of,
  data_after,
  last_recorded_offset_of,
  is_recording_of,
  good_recorder,
};

use decimal::Line;
use refusals::Refusal;

#[derive(Clone, Copy)]
pub enum State {
    Triggered { write: usize },
    Idle,
}

impl State {
    fn copied(self) -> Self
        ensures { result ≡ self }
    {
        match self {
            State::Triggered { write } => State::Triggered { write },
            State::Idle => State::Idle,
        }
    }
}

// Of each list of errors that the Rust keeps, its length is kept.
#[derive(Clone, Copy)]
pub struct Recorder {
    pub state: State,
    pub skipped_samples: u32,
    pub incorrect_state: u32,
}

// What a stop or a sample leaves.
#[derive(Clone, Copy)]
pub struct Recorded {
    pub recorder: Recorder,
    pub data_len: usize,
}

#[tactic(auto, unfolding(crate::specs::Recording::raised))]
fn raised_count(count: u32) -> u32
    ensures { result ≡ raised count }
{
    count.saturating_add(1)
}

impl Recorder {
    pub fn new() -> Recorder
        ensures { result ≡ new_recorder_of }
    {
        Recorder {
            state: State::Idle,
            skipped_samples: 0,
            incorrect_state: 0,
        }
    }

    #[tactic(auto, unfolding(crate::specs::Recording::start_of, crate::specs::Recording::in_state))]
    pub fn start(self) -> Recorder
        ensures { result ≡ start_of self }
    {
        match self.state {
            State::Idle => Recorder {
                state: State::Triggered { write: 0 },
                ..self
            },
            State::Triggered { .. } => self.misused(),
        }
    }

    // Cuts the data to the write place.
    #[tactic(auto, unfolding(crate::specs::Recording::stop_of, crate::specs::Recording::in_state))]
    pub fn stop(self, data_len: usize) -> Recorded
        ensures { result ≡ stop_of self data_len }
    {
        match self.state {
            State::Triggered { write } => Recorded {
                recorder: Recorder {
                    state: State::Idle,
                    ..self
                },
                data_len: data_len.min(write),
            },
            State::Idle => Recorded {
                recorder: self.misused(),
                data_len,
            },
        }
    }

    #[tactic(auto, unfolding(crate::specs::Recording::misused_of))]
    fn misused(self) -> Recorder
        ensures { result ≡ misused_of self }
    {
        Recorder {
            incorrect_state: raised_count(self.incorrect_state),
            ..self
        }
    }

    #[tactic(auto, unfolding(crate::specs::Recording::recorded_of, crate::specs::Recording::data_after, crate::specs::Recording::in_state, crate::specs::Recording::skipped_of))]
    pub fn with_sample(self, sample: u32, data: &mut [u32], data_len: usize) -> Recorded
        ensures value { result ≡ recorded_of self data_len (length «data».old) }
        ensures data_after { «data».new ≡ data_after self sample «data».old }
    {
        let State::Triggered { write } = self.state else {
            return Recorded {
                recorder: self.copied(),
                data_len,
            };
        };
        if data.len() <= write {
            return Recorded {
                recorder: Recorder {
                    state: State::Triggered { write },
                    skipped_samples: raised_count(self.skipped_samples),
                    ..self
                },
                data_len,
            };
        }
        data[write] = sample;
        Recorded {
            recorder: Recorder {
                state: State::Triggered { write: write + 1 },
                ..self
            },
            data_len: data_len.max(write + 1),
        }
    }

    // A copy made case by case, as `Volume::copied` is.
    pub fn copied(self) -> Self
        ensures { result ≡ self }
    {
        Self {
            state: self.state.copied(),
            skipped_samples: self.skipped_samples,
            incorrect_state: self.incorrect_state,
        }
    }

    #[tactic(auto, unfolding(crate::specs::Recording::last_recorded_offset_of))]
    pub fn last_recorded_offset(self) -> Option<usize>
        ensures { result ≡ last_recorded_offset_of self }
    {
        match self.state {
            State::Triggered { write } => Some(write),
            State::Idle => None,
        }
    }

    #[tactic(auto, unfolding(crate::specs::Recording::is_recording_of))]
    pub fn is_recording(self) -> bool
        ensures { result ≡ is_recording_of self }
    {
        matches!(self.state, State::Triggered { .. })
    }

    // Whether the write place doesn't exceed the length of the data, nor that the capacity.
    #[tactic(auto, unfolding(crate::specs::Recording::good_recorder))]
    pub fn good(self, data_len: usize, capacity: usize) -> bool
        ensures { result ≡ good_recorder self data_len capacity }
    {
        match self.state {
            State::Triggered { write } => (write <= data_len) & (data_len <= capacity),
            State::Idle => data_len <= capacity,
        }
    }

    // Writes `skip: 0, neg: 0, inc: 0` with the counts, and answers how many bytes that is. Where the lent list is shorter,
    // nothing is written.
    pub fn print_error_info(self, text: &mut [u8]) -> Result<usize, Refusal>
        ensures value { result ≡ print_error_info_of self (length text.old) }
        ensures text_after { text.new ≡ text_after self text.old }
    {
        let line = self.error_text();
        if line.print(text) {
            Ok(line.length)
        } else {
            Err(Refusal::ShortList)
        }
    }

    fn error_text(self) -> Line
        ensures { result ≡ line_of (error_text self) }
    {
        Line::new()
            .with(b"skip: ")
            .with_decimal(self.skipped_samples as u64)
            .with(b", neg: 0, inc: ")
            .with_decimal(self.incorrect_state as u64)
    }
}
