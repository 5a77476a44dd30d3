// Plays document 01's event listing from standard input, and prints a line for each record. What the bytes mean is said
// and proved in the crate `listing`, what is handed out while they arrive in `feeds`; here is the loop that reads, feeds
// and writes. It plays what is there before it waits for more.
#![tactic(auto)]

mod feeds;
mod words;

ghost use Rattle.std.specs.Prelude.{◌≡◌, ◌+◌, ◌-◌, ◌*◌, ◌≤◌, length, take, drop};
ghost use Rattle.events.specs.Feeds.{FeedsPiece, blank};

use feeds::{State, begun, feed, part};
use std::io::Read;

// How far the listing is, how many bytes wait in front of the input, and how long the text is that was handed out last.
#[derive(Clone, Copy)]
struct Run {
    state: State,
    have: usize,
    size: usize,
}

// A feed of 4,095 bytes has at most 4,096 lines, of 64 bytes each.
fn main(rt: HostRuntime) {
    let mut memory = [0u32; 8192];
    let mut input = [0u8; 4095];
    let mut out = [0u8; 262144];
    let mut from = rt.stdin();
    play(&rt, &mut from, &mut memory, &mut input, &mut out);
}

fn play(
    rt: &(impl Print + Eprint),
    from: &mut impl Read,
    memory: &mut [u32],
    input: &mut [u8],
    out: &mut [u8],
)
    requires memory_value { memory.old ≡ blank }
    requires input_in_bounds { 64 * (length input.old + 1) ≤ length out.old }
{
    let mut run = Run {
        state: begun(memory),
        have: 0,
        size: 0,
    };
    let mut written = true;
    // What a proved loop ends by: no input uses them up.
    let mut turns = u64::MAX;
    while turns > 0 && written & run.state.listing.on {
        run = turn(rt, from, run, memory, input, out);
        written = write(rt, out, run.size);
        turns -= 1;
    }
    if written {
        told(rt, run, input);
    }
}

// Reads a piece of the input behind what waits, and feeds. Where there is none, no more comes.
fn turn(
    rt: &impl Eprint,
    from: &mut impl Read,
    run: Run,
    memory: &mut [u32],
    input: &mut [u8],
    out: &mut [u8],
) -> Run
    requires have_in_bounds { run.have ≤ length input.old }
    requires input_in_bounds { 64 * (length input.old + 1) ≤ length out.old }
    ensures { FeedsPiece run memory.old input.old result memory.new input.new
        out.new }
{
    let before = run.have;
    let got = read_some(rt, from, input, before);
    let have = before + got;
    let state = run.state;
    let fed = feed(state, &input[..have], got == 0, memory, out);
    let after = fed.state;
    Run {
        state: after,
        have: moved(input, fed.used, have),
        size: fed.size,
    }
}

// Moves what is left of the first `have` bytes to the front.
fn moved(input: &mut [u8], used: usize, have: usize) -> usize
    requires used_le_have { used ≤ have }
    requires have_in_bounds { have ≤ length input.old }
    ensures upper_bound { result ≤ have }
    ensures input_after { take result input.new ≡ drop used (take have input.old) }
{
    let left = have - used;
    let mut i = 0;
    while i < left {
        input[i] = input[used + i];
        i += 1;
    }
    left
}

// Reads what there is, after the first `have` bytes: nothing at the end of the input, or where it can't be read.
fn read_some(rt: &impl Eprint, from: &mut impl Read, input: &mut [u8], have: usize) -> usize
    requires { have ≤ length input.old }
    ensures result_in_bounds { have + result ≤ length input.old }
    ensures input_unchanged { take have input.new ≡ take have input.old }
{
    match from.read(&mut input[have..]) {
        Ok(got) => got,
        Err(_) => {
            words::unread(rt);
            0
        }
    }
}

// Writes the text, and says so where it is lost.
fn write(rt: &(impl Print + Eprint), out: &[u8], size: usize) -> bool
    requires { size ≤ length out.now }
{
    let done = rt.write_all(&out[..size]).is_ok();
    if !done {
        words::lost(rt);
    }
    done
}

// Says why a listing ended before its input did: what ended it waits in front.
fn told(rt: &impl Eprint, run: Run, input: &[u8])
    requires { run.have ≤ length input.now }
{
    let have = run.have;
    let offset = run.state.listing.offset;
    let n = part(offset > 0, &input[..have]);
    if offset == 0 {
        words::of_header(rt, &input[..n]);
    } else if have > 0 {
        words::of_record(rt, offset, run.state.listing.header, &input[..n]);
    }
}
