// The next event of a track: when it comes, and where its bytes stand.
ghost use Rattle.std.specs.Prelude.{◌≡◌, true, not, ◌&&◌, ◌||◌, List, ℕ, ◌-◌, ◌^◌, ◌≤◌, ◌<◌, leb};
ghost use Rattle.smf.specs.Promised.{Timed};
ghost use Rattle.song_merge.specs.Standing.{Held, Views, CursorPlaced};

use smf::events::{Read, event_at};
use smf::fields::quantity_at;

// `wait` is in ticks since the event that was written last. `before` and `after` are the running status before the
// event and behind it; the event stands from `from` to `next`. Where the track has ended its end is what is waited for.
#[derive(Clone, Copy)]
pub struct Cursor {
    pub ended: bool,
    pub wait: u32,
    pub before: u8,
    pub after: u8,
    pub from: usize,
    pub next: usize,
}

fn over(wait: u32, at: usize) -> Cursor
    ensures { result ≡ record {
      ended = true;
      wait = wait;
      before = 0;
      after = 0;
      from = at;
      next = at;
    } }
{
    Cursor {
        ended: true,
        wait,
        before: 0,
        after: 0,
        from: at,
        next: at,
    }
}

// What a track that ends at `end` has at a place.
pub fn look(list: &[u8], end: usize, running: u8, at: usize) -> Cursor
    requires { end < 2 ^ 63 }
    ensures cursor_placed { CursorPlaced end at result }
    ensures views { (ts : List Timed) (k : ℕ) → Held list.now running at end ts k
        → Views list.now end result ts k }
{
    match quantity_at(list, end, at) {
        Err(_) => over(0, at),
        Ok((wait, from)) => match event_at(list, end, running, from) {
            Err(_) => over(0, at),
            Ok(Read::End(_)) => over(wait, at),
            Ok(
                Read::Is {
                    event: _,
                    status,
                    next,
                },
            ) => Cursor {
                ended: false,
                wait,
                before: running,
                after: status,
                from,
                next,
            },
        },
    }
}

// So many ticks later. The end of a track that is over doesn't wait below 0.
pub fn waited(c: Cursor, ticks: u32) -> Cursor
    ensures { result ≡ record {
      ended = c.ended;
      wait = c.wait - ticks;
      before = c.before;
      after = c.after;
      from = c.from;
      next = c.next;
    } }
{
    Cursor {
        ended: c.ended,
        wait: c.wait.saturating_sub(ticks),
        before: c.before,
        after: c.after,
        from: c.from,
        next: c.next,
    }
}

// Whether the next event is the first one's: of two at one tick it is.
pub fn goes_first(a: Cursor, b: Cursor) -> bool
    ensures { result ≡ not a.ended && (b.ended || leb a.wait b.wait) }
{
    if a.ended {
        return false;
    }
    if b.ended {
        return true;
    }
    a.wait <= b.wait
}
