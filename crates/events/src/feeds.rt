// Plays a listing while its input arrives. What a feed plays and hands out is `fed_of` in specs/Feeds.antt; that the texts
// of all feeds are `printed` of the input, however it arrives, is proved there.
ghost use Rattle.std.specs.Prelude.{◌≡◌, true, false, cond, ◌&&◌, ◌||◌, ◌++◌, ◌+◌, ◌*◌, ◌≤◌, min, leb, length, take, drop};
ghost use Rattle.decimal.specs.Lines.{text_of};
ghost use Rattle.listing.specs.Records.{to_read};
ghost use Rattle.events.specs.Feeds.{
  size_of,
  ready_of,
  fed_of,
  Lays,
  PlaysOne,
  Hands,
  unopened,
  blank,
};

use decimal::Line;
use listing::records::rest;
use listing::{Listing, Step};

// How far a listing is, and whether its header was read.
#[derive(Clone, Copy)]
pub struct State {
    pub listing: Listing,
    pub opened: bool,
}

// What a feed leaves, how many of the bytes it used, and how long its text is.
#[derive(Clone, Copy)]
pub struct Fed {
    pub state: State,
    pub used: usize,
    pub size: usize,
}

// Before the header.
pub fn begun(memory: &[u32]) -> State
    requires { memory.now ≡ blank }
    ensures { result ≡ unopened }
{
    let step = listing::open(b"", memory);
    let mut listing = step.listing;
    listing.on = true;
    State {
        listing,
        opened: false,
    }
}

// How many bytes the record has that begins here.
fn record_size(input: &[u8]) -> usize
    ensures { result ≡ 2 + to_read (take 2 input.now) }
{
    if input.len() < 2 {
        return 2;
    }
    2 + rest(&input[..2])
}

// The same, or of the header.
fn size_of(opened: bool, input: &[u8]) -> usize
    ensures { result ≡ size_of opened input.now }
{
    if opened {
        return record_size(input);
    }
    3
}

// How many of them there are.
pub fn part(opened: bool, input: &[u8]) -> usize
    ensures { result ≡ min (size_of opened input.now) (length input.now) }
{
    let size = size_of(opened, input);
    let n = input.len();
    if size < n { size } else { n }
}

// Whether there is something to play.
fn ready(on: bool, opened: bool, last: bool, input: &[u8]) -> bool
    ensures { result ≡ (on && (last || leb (size_of opened input.now) (length input.now))) }
{
    on & (last | (size_of(opened, input) <= input.len()))
}

// Puts a line after the text.
fn put(line: Line, out: &mut [u8], at: usize) -> usize
    requires { at + 64 ≤ length out.old }
    ensures upper_bound { result ≤ at + 64 }
    ensures out_after { take result out.new ≡ take at out.old ++ text_of line }
{
    let size = line.length;
    line.print(&mut out[at..]);
    if size < 64 { at + size } else { at + 64 }
}

fn past(on: bool, used: usize, end: usize) -> usize
    ensures { result ≡ cond on end used }
{
    if on { end } else { used }
}

// What a header or a record leaves, its line after the text.
fn played(step: Step, used: usize, end: usize, out: &mut [u8], size: usize) -> Fed
    requires { size + 64 ≤ length out.old }
    ensures { Lays step used end size out.old result out.new }
{
    let listing = step.listing;
    let line = step.line;
    Fed {
        state: State {
            listing,
            opened: true,
        },
        used: past(listing.on, used, end),
        size: put(line, out, size),
    }
}

// Plays the header.
fn first(fed: Fed, input: &[u8], memory: &[u32], out: &mut [u8]) -> Fed
    requires opened_value { fed.state.opened ≡ false }
    requires used_in_bounds { fed.used ≤ length input.now }
    requires size_in_bounds { fed.size + 64 ≤ length out.old }
    ensures { PlaysOne fed input.now memory.now out.old result memory.now
        out.new }
{
    let used = fed.used;
    let end = used + part(false, &input[used..]);
    let step = listing::open(&input[used..end], memory);
    played(step, used, end, out, fed.size)
}

// Plays one record.
fn next(fed: Fed, input: &[u8], memory: &mut [u32], out: &mut [u8]) -> Fed
    requires opened_value { fed.state.opened ≡ true }
    requires used_in_bounds { fed.used ≤ length input.now }
    requires size_in_bounds { fed.size + 64 ≤ length out.old }
    ensures { PlaysOne fed input.now memory.old out.old result memory.new
        out.new }
{
    let used = fed.used;
    let state = fed.state;
    let end = used + part(true, &input[used..]);
    let listing = state.listing;
    let step = listing.step(&input[used..end], memory);
    played(step, used, end, out, fed.size)
}

fn one(fed: Fed, input: &[u8], memory: &mut [u32], out: &mut [u8]) -> Fed
    requires used_in_bounds { fed.used ≤ length input.now }
    requires size_in_bounds { fed.size + 64 ≤ length out.old }
    ensures { PlaysOne fed input.now memory.old out.old result memory.new
        out.new }
{
    if fed.state.opened {
        return next(fed, input, memory, out);
    }
    first(fed, input, memory, out)
}

fn goes_on(fed: Fed, last: bool, input: &[u8]) -> bool
    requires { fed.used ≤ length input.now }
    ensures { result ≡ ready_of last fed.state (drop fed.used input.now) }
{
    let used = fed.used;
    ready(fed.state.listing.on, fed.state.opened, last, &input[used..])
}

// Plays all that is ready. There is room for a line a turn.
pub fn feed(state: State, input: &[u8], last: bool, memory: &mut [u32], out: &mut [u8]) -> Fed
    requires { 64 * (length input.now + 1) ≤ length out.old }
    ensures { Hands (fed_of last state memory.old input.now) input.now result
        memory.new out.new }
{
    let mut fed = Fed {
        state,
        used: 0,
        size: 0,
    };
    let mut turns = input.len() + 1;
    while turns > 0 && goes_on(fed, last, input) {
        fed = one(fed, input, memory, out);
        turns -= 1;
    }
    fed
}
