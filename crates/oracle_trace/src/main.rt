// Plays listings from standard input on the sampler, and prints after each call what it answered and what it left, for
// the comparison with the Rust (oracle/README.md). A record is 64 bytes: its kind, then fields at fixed places,
// big-endian, floats by their bits. One that is cut short or whose kind is not known is answered by `X`, and the
// program ends.
//
// Kinds: 0 set-up; 1 parameters; 2 start, 3 stop, 4 note speed, 5 and 6 start and stop of recording, 7 reset; 8 sample
// of one channel; 9 frame; 10 clocks put on, or a field put; 11 the recordings; 12 frames processed, 13 data length, 14
// is recording, 15 last recorded offset, 16 error text, 17 active notes, 18 voice info; 19 many frames; 20 waveform
// summary; 21 a run of frames; 22 request 7/12's setting; 23 a piece of a WAVE file, 24 the recordings written as a file,
// 25 a file read; 26 a phrase chosen, 27 one deleted, 28 all gathered. A set-up takes back the parameters to the
// defaults, and empties memory and file.
#![tactic(auto)]

ghost use Rattle.std.specs.Prelude.{◌≤◌, length, max};

use oracle_acts::calls::{entries_of, run_asked};
use oracle_acts::puts::put;
use oracle_acts::run::Run;
use oracle_lines::chunk::read_full;
use oracle_lines::field::Record;
use oracle_lines::settings::params_of;
use oracle_show::replies::{query, waveform};
use std::io::Read;

fn main(rt: HostRuntime) {
    let mut from = rt.stdin();
    let mut run = Run::new();
    for _ in 0..u64::MAX {
        if !turn(&rt, &mut from, &mut run) {
            break;
        }
    }
    run.out.write(&rt);
}

// Reads and plays 128 records, or as many as are left. Whether more may follow.
fn turn(rt: &impl Print, from: &mut impl Read, run: &mut Run) -> bool
    ensures { length run.new.out ≤ max (length run.old.out) 65536 }
{
    let mut chunk = [0u8; 8192];
    let got = read_full(from, &mut chunk);
    play(rt, &chunk[..got], run) & (got == 8192)
}

// Whether the listing goes on: a bad record ends it.
fn play(rt: &impl Print, chunk: &[u8], run: &mut Run) -> bool
    ensures { length run.new.out ≤ max (length run.old.out) 65536 }
{
    let (records, rest) = chunk.as_chunks::<64>();
    for record in records {
        run.out.spill(rt);
        if !answer(rt, record, run) {
            run.bad();
            return false;
        }
    }
    if !rest.is_empty() {
        run.out.spill(rt);
        run.bad();
        return false;
    }
    true
}

// Whether the record's kind is known.
fn answer(rt: &impl Print, fields: &Record, run: &mut Run) -> bool
    ensures { length run.old.out ≤ 32768 → length run.new.out ≤ 65534 }
{
    let kind = fields[0];
    match kind {
        0 => {
            let number = run.set_up(fields);
            run.answered(kind, number);
        }
        1 => {
            run.params = params_of(fields);
            run.told(kind);
        }
        2..=7 | 26 | 27 => {
            let number = run.call(fields);
            run.answered(kind, number);
        }
        8 => {
            let h = run.sample(fields);
            run.heard(kind, h);
        }
        9 => {
            let h = run.frame(entries_of(fields), fields);
            run.heard(kind, h);
        }
        10 => {
            put(&mut run.sampler, fields);
            run.answered(kind, 0);
        }
        11 => {
            run.told(kind);
            run.put_recordings(rt);
        }
        12..=18 => query(run.sampler, run.params, fields, &mut run.out),
        19 => {
            let h = run.frames(fields);
            run.heard(kind, h);
        }
        20 => waveform(run.sampler, fields, &run.memory, &mut run.out),
        21 => ran(kind, fields, run),
        22 => {
            let number = run.on(run.sampler.set_interpolation(fields[1] != 0));
            run.answered(kind, number);
        }
        23 => {
            run.piece(fields);
            run.told(kind);
        }
        24 => {
            let a = run.write(fields);
            run.wrote(kind, a);
        }
        25 => {
            let read = run.read(fields);
            run.took(kind, read);
        }
        28 => {
            let number = run.gather(fields);
            run.gathered(kind, number);
        }
        _ => return false,
    }
    true
}

// A run of as many entries as the number at 12 says, and of 2,048 at most.
fn ran(kind: u8, fields: &Record, run: &mut Run)
    ensures { length run.old.out ≤ 32768 → length run.new.out ≤ 65534 }
{
    let mut entries = [0.0f32; 2048];
    let n = run_asked(fields);
    let ran = run.frames_of(fields, &mut entries[..n]);
    run.ran(kind, ran, &entries[..n])
}
