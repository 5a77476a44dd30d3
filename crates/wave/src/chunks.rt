// The chunks of a file: where those that count stand.
ghost use Rattle.std.specs.Prelude.{◌≡◌};
ghost use Rattle.wave.specs.Reader.{met_of, walk_of};

use crate::fields::four_at;
use crate::ids::{DATA, FACT, FORMAT};

// 0 is the place of a chunk that wasn't met.
#[derive(Clone, Copy)]
pub struct Places {
    pub format: usize,
    pub words: usize,
    pub fact: usize,
}

// A chunk of this id at a place, behind others; None where it may not stand there.
fn meet(id: u32, at: usize, p: Places) -> Option<Places>
    ensures { result ≡ met_of id at p }
{
    if id == FORMAT {
        if p.format != 0 {
            return None;
        }
        return Some(Places { format: at, ..p });
    }
    if id == DATA {
        if p.format == 0 {
            return None;
        }
        if p.words != 0 {
            return None;
        }
        return Some(Places { words: at, ..p });
    }
    if id == FACT {
        if p.fact != 0 {
            return None;
        }
        return Some(Places { fact: at, ..p });
    }
    Some(p)
}

// From `WAVE` on, which ends at 12, to the end of the file.
pub fn walk(file: &[u8]) -> Option<Places>
    ensures { result ≡ walk_of file.now }
{
    let all = file.len();
    let mut at: usize = 12;
    let mut places = Places {
        format: 0,
        words: 0,
        fact: 0,
    };
    // No index is counted: each chunk says how far the next one is.
    while at < all {
        if all - at < 8 {
            return None;
        }
        let size = four_at(file, at + 4) as usize;
        let padded = size + size % 2;
        if all - at - 8 < padded {
            return None;
        }
        places = meet(four_at(file, at), at, places)?;
        at = at + 8 + padded;
    }
    Some(places)
}
