// Answers records from standard input with a line each on standard output, for the comparison with the Rust
// (oracle/README.md). A record is 64 bytes: the number of a part, then the arguments of that part's functions. A record
// that is cut short or that names no part is answered by `X`, and the program ends.
#![tactic(auto)]

ghost use Rattle.std.specs.Prelude.{◌≡◌, ◌+◌, ◌*◌, ◌≤◌, ◌<◌, [], length};

use oracle_lines::chunk::read_full;
use oracle_lines::field::Record;
use oracle_lines::line::Text;
use std::io::Read;

mod clips;
mod defaults;
mod leaves;
mod levels;
mod settings;

fn main(rt: HostRuntime) {
    let mut from = rt.stdin();
    let mut out = Text::new();
    for _ in 0..u64::MAX {
        if !turn(&rt, &mut from, &mut out) {
            break;
        }
    }
}

// Reads and answers 128 records, or as many as are left. Whether more may follow.
fn turn(rt: &impl Print, from: &mut impl Read, out: &mut Text) -> bool
    requires { out.old ≡ [] }
    ensures { out.new ≡ [] }
{
    let mut chunk = [0u8; 8192];
    let got = read_full(from, &mut chunk);
    let all = answers(&chunk[..got], out);
    out.write(rt) & all & (got == 8192)
}

// Whether every record was answered. (128 of them take less than all of the room, so that nothing of the text is cut.)
fn answers(chunk: &[u8], out: &mut Text) -> bool
    requires chunk_len_bound { length chunk.now ≤ 8192 }
    requires nothing_waits { out.old ≡ [] }
    ensures bound { length out.new ≤ length out.old + 8 * length chunk.now }
    ensures whole { length out.new < 65536 }
{
    let (records, rest) = chunk.as_chunks::<64>();
    let mut all = rest.is_empty();
    for record in records {
        if !answer(record, out) {
            all = false;
            break;
        }
    }
    if !all {
        out.tag(b'X');
        out.end();
    }
    all
}

// The line that answers the record. Whether it names a part.
fn answer(fields: &Record, out: &mut Text) -> bool
    ensures { length out.new ≤ length out.old + 302 }
{
    match fields[0] {
        0 => leaves::answer(fields, out),
        1 => settings::answer(fields, out),
        2 => levels::answer(fields, out),
        3 => defaults::answer(out),
        4 => clips::answer(fields, out),
        _ => return false,
    }
    true
}
