// The records, as many as there is room for.
ghost use Rattle.std.specs.Prelude.{◌≤◌, length};

use std::io::Read;

// Reads until `chunk` is full, the input ends or a read fails, and answers how many bytes it put in front. (Not
// `read_exact`, which doesn't say how many.)
pub fn read_full(from: &mut impl Read, chunk: &mut [u8]) -> usize
    ensures { result ≤ length chunk.old }
{
    let mut done = 0;
    while done < chunk.len() {
        match from.read(&mut chunk[done..]) {
            Ok(n) if n > 0 => done += n,
            _ => break,
        }
    }
    done
}
