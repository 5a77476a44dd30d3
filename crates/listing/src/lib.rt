// Document 01's event listing: what each header and each record of it means, what it does to the engine, and the line
// that it prints. Each public function equals a definition in specs/, for every value of its arguments.
#![tactic(auto)]

pub mod faults;
mod fields;
pub mod player;
pub mod records;
pub mod texts;

ghost use Rattle.std.specs.Prelude.{◌≡◌, ◌≤◌, ◌*◌, min, length};
ghost use Rattle.listing.specs.Records.{channel_count};
ghost use Rattle.listing.specs.Steps.{player_of, later_by, open_of, over_with, record_step, step_memory};

use common_types::{InitParams, Params};
use decimal::Line;
use player::Player;
use records::{Header, read_header, read_record};
use sampler::Sampler;
use texts::bad_line;

// How far a listing is: the offset is that of its next record. It is on until it ends.
#[derive(Clone, Copy)]
pub struct Listing {
    pub header: Header,
    pub player: Player,
    pub offset: u64,
    pub on: bool,
}

// What a header or a record leaves, and the line that it prints, if any.
#[derive(Clone, Copy)]
pub struct Step {
    pub listing: Listing,
    pub line: Line,
}

fn channels(h: Header) -> usize
    ensures value { result ≡ channel_count h }
    ensures at_most { result ≤ 2 }
{
    if h.stereo { 2 } else { 1 }
}

// 4,096 samples a channel.
fn samples(h: Header) -> usize
    ensures { result ≡ channel_count h * 4096 }
{
    channels(h) * 4096
}

// How much of the lent memory is the engine's.
fn lent(h: Header, size: usize) -> usize
    ensures { result ≡ min size (channel_count h * 4096) }
{
    samples(h).min(size)
}

fn player_for(h: Header, memory: &[u32]) -> Player
    ensures { result ≡ player_of h (length memory.now) }
{
    let n = lent(h, memory.len());
    let init = InitParams {
        auto_passthru: h.auto_passthru,
    };
    let a = Sampler::new(channels(h), init, &memory[..n]);
    let sampler = a.sampler;
    Player {
        sampler,
        params: Params::default(),
    }
}

fn later(offset: u64, n: usize) -> u64
    ensures { result ≡ later_by n offset }
{
    offset.saturating_add(n as u64)
}

// Begins with the bytes of a header.
pub fn open(bytes: &[u8], memory: &[u32]) -> Step
    ensures { result ≡ open_of bytes.now (length memory.now) }
{
    match read_header(bytes) {
        Some(header) => Step {
            listing: Listing {
                header,
                player: player_for(header, memory),
                offset: 3,
                on: true,
            },
            line: Line::new(),
        },
        None => {
            let header = Header {
                second: false,
                stereo: false,
                auto_passthru: false,
            };
            Step {
                listing: Listing {
                    header,
                    player: player_for(header, memory),
                    offset: 0,
                    on: false,
                },
                line: bad_line(0),
            }
        }
    }
}

impl Listing {
    fn ended(self, line: Line) -> Step
        ensures { result ≡ over_with self line }
    {
        let mut listing = self;
        listing.on = false;
        Step { listing, line }
    }

    // Goes on with the bytes of a record. Where there are none the listing is over.
    pub fn step(self, bytes: &[u8], memory: &mut [u32]) -> Step
        ensures value { result ≡ record_step self bytes.now memory.old }
        ensures memory_after { memory.new ≡ step_memory self bytes.now memory.old }
    {
        if bytes.is_empty() {
            return self.ended(Line::new());
        }
        let header = self.header;
        match read_record(header, bytes) {
            Some(call) => {
                let played = self.player.play(call, memory);
                Step {
                    listing: Listing {
                        header,
                        player: played.player,
                        offset: later(self.offset, bytes.len()),
                        on: true,
                    },
                    line: played.line,
                }
            }
            None => self.ended(bad_line(self.offset)),
        }
    }
}
