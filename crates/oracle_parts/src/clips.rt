// Part 4: clip. The arguments: bytes mode at 1 (0 loop, 1 ping-pong), kind of update at 2 (0 speed, 1 mode, 2 length, 3
// data length, 4 all of them) and new mode at 3; floats start at 4, speed at 8, length at 12, data length at 16, shift at
// 20, x (a place in the data) at 24, value (a new speed or length, of all four the length) at 28; whole numbers since at
// 32, now at 40, later at 48; of all four the new speed at 56 and data length at 60.
ghost use Rattle.std.specs.Prelude.{◌≡◌, ◌+◌, length, min};

use clip::{Clip, Mode, Position};
use oracle_lines::field::{Record, f32_at, usize_at};
use oracle_lines::line::Text;
use refusals::Refusal;

pub fn answer(fields: &Record, out: &mut Text)
    ensures { length out.new ≡ min (length out.old + 272) 65536 }
{
    let c = clip_of(fields);
    let now = usize_at(fields, 40);
    let changed = update(fields, c, now);
    put_change(out, made(c));
    put_at(out, c, now);
    put_found(out, c.data_to_clip(f32_at(fields, 24)));
    put_change(out, changed);
    // Where the update was refused, the clip is itself.
    put_position(out, changed.unwrap_or(c).offset(usize_at(fields, 48)));
    out.end()
}

// What is asked of a clip at a time.
fn put_at(out: &mut Text, c: Clip, now: usize)
    ensures { length out.new ≡ min (length out.old + 90) 65536 }
{
    put_elapsed(out, c.elapsed(now));
    put_offset(out, c.clip_offset(now));
    put_position(out, c.offset(now));
    put_next(out, c, now);
    put_reversing(out, c.is_pingpong_reversing(now))
}

fn made(c: Clip) -> Result<Clip, Refusal> {
    Clip::new(c.since, c.start, c.speed, c.length, c.data_length, c.mode)
}

fn update(fields: &Record, c: Clip, time: usize) -> Result<Clip, Refusal> {
    let value = f32_at(fields, 28);
    match fields[2] {
        0 => c.update_speed(time, value),
        1 => c.update_mode(time, mode_of(fields[3])),
        2 => c.update_length(time, value),
        4 => c.update_all(
            time,
            value,
            f32_at(fields, 56),
            f32_at(fields, 60),
            mode_of(fields[3]),
        ),
        _ => c.update_data_length(time, value),
    }
}

// Each of these puts document 01's number for the answer, and then its values.
fn put_change(out: &mut Text, a: Result<Clip, Refusal>)
    ensures { length out.new ≡ min (length out.old + 66) 65536 }
{
    let (number, c) = match a {
        Ok(c) => (0, c),
        Err(refusal) => (refusal.number(), no_clip()),
    };
    out.begin::<1>(number as u64);
    out.begin::<16>(c.since as u64);
    out.begin_f32(c.start);
    out.begin_f32(c.speed);
    out.begin_f32(c.length);
    out.begin_f32(c.data_length);
    out.begin_f32(by_value(c.shift));
    out.put::<1>(mode_number(c.mode))
}

fn put_elapsed(out: &mut Text, a: Result<usize, Refusal>)
    ensures { length out.new ≡ min (length out.old + 19) 65536 }
{
    let (number, n) = match a {
        Ok(n) => (0, n),
        Err(refusal) => (refusal.number(), 0),
    };
    out.begin::<1>(number as u64);
    out.put_usize(n)
}

// The next index (request 7/12), where there is a position.
fn put_next(out: &mut Text, c: Clip, now: usize)
    ensures { length out.new ≡ min (length out.old + 19) 65536 }
{
    put_elapsed(out, c.offset(now).map(|_| c.next_at(now)))
}

fn put_offset(out: &mut Text, a: Result<f32, Refusal>)
    ensures { length out.new ≡ min (length out.old + 11) 65536 }
{
    let (number, x) = match a {
        Ok(x) => (0, x),
        Err(refusal) => (refusal.number(), 0.0),
    };
    out.begin::<1>(number as u64);
    out.put_f32(by_value(x))
}

// What index and fraction add up to, and the two of them.
fn put_position(out: &mut Text, a: Result<Position, Refusal>)
    ensures { length out.new ≡ min (length out.old + 37) 65536 }
{
    let (number, p) = match a {
        Ok(p) => (0, p),
        Err(refusal) => (refusal.number(), no_position()),
    };
    out.begin::<1>(number as u64);
    out.begin_f32(by_value(p.sum()));
    out.begin::<16>(p.index as u64);
    out.put_f32(p.fraction)
}

fn put_reversing(out: &mut Text, a: Result<bool, Refusal>)
    ensures { length out.new ≡ min (length out.old + 4) 65536 }
{
    let (number, reversing) = match a {
        Ok(b) => (0, b),
        Err(refusal) => (refusal.number(), false),
    };
    out.begin::<1>(number as u64);
    out.put_bool(reversing)
}

// Whether there is a place, and the place.
fn put_found(out: &mut Text, a: Result<Option<f32>, Refusal>)
    ensures { length out.new ≡ min (length out.old + 13) 65536 }
{
    let (number, found) = match a {
        Ok(found) => (0, found),
        Err(refusal) => (refusal.number(), None),
    };
    out.begin::<1>(number as u64);
    out.begin::<1>(found.is_some() as u64);
    out.put_f32(by_value(found.unwrap_or(0.0)))
}

// Positions and shifts are compared by value: a zero of either sign is one number.
fn by_value(x: f32) -> f32 {
    if x == 0.0 { 0.0 } else { x }
}

fn clip_of(fields: &Record) -> Clip {
    Clip {
        since: usize_at(fields, 32),
        start: f32_at(fields, 4),
        speed: f32_at(fields, 8),
        length: f32_at(fields, 12),
        data_length: f32_at(fields, 16),
        shift: f32_at(fields, 20),
        mode: mode_of(fields[1]),
    }
}

// What is put where a question or an update is refused.
fn no_position() -> Position {
    Position {
        index: 0,
        fraction: 0.0,
    }
}

fn no_clip() -> Clip {
    Clip {
        since: 0,
        start: 0.0,
        speed: 0.0,
        length: 0.0,
        data_length: 0.0,
        shift: 0.0,
        mode: Mode::Loop,
    }
}

// By number, as the Rust's side writes it into a record, and as it prints it.
fn mode_of(index: u8) -> Mode {
    match index {
        0 => Mode::Loop,
        _ => Mode::PingPong,
    }
}

fn mode_number(mode: Mode) -> u64 {
    match mode {
        Mode::Loop => 0,
        Mode::PingPong => 1,
    }
}
