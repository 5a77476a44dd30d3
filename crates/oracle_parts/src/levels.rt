// Part 2: volume. The arguments: at 1 a byte, 0 for a steady level and 1 for a ramp; whole numbers start at 8, end at
// 16, now at 24, duration at 32; floats from at 40 (also the steady level), till at 44, target at 48; a whole number
// later at 56.
ghost use Rattle.std.specs.Prelude.{◌≡◌, ◌+◌, length, min};

use oracle_lines::field::{Record, f32_at, usize_at};
use oracle_lines::line::Text;
use refusals::Refusal;
use volume::Volume;

pub fn answer(fields: &Record, out: &mut Text)
    ensures { length out.new ≡ min (length out.old + 302) 65536 }
{
    let v = volume_of(fields);
    let now = usize_at(fields, 24);
    let target = f32_at(fields, 48);
    let moved = v.to(now, usize_at(fields, 32), target);
    put_set(out, v, target);
    put_at(out, v, now);
    put_change(out, moved);
    // Where the change was refused, the volume is itself.
    put_at(out, moved.unwrap_or(v), usize_at(fields, 56));
    out.end()
}

// What needs no time.
fn put_set(out: &mut Text, v: Volume, target: f32)
    ensures { length out.new ≡ min (length out.old + 112) 65536 }
{
    out.put_bool(v.is_static());
    out.put_bool(v.is_static_and_mute());
    out.put_volume(Volume::new(target));
    out.put_volume(v.set(target))
}

// The level at a time, and the volume after a step at it.
fn put_at(out: &mut Text, v: Volume, now: usize)
    ensures { length out.new ≡ min (length out.old + 67) 65536 }
{
    put_level(out, v.value(now));
    put_change(out, v.step(now))
}

// Document 01's number for the answer, and the level.
fn put_level(out: &mut Text, a: Result<f32, Refusal>)
    ensures { length out.new ≡ min (length out.old + 11) 65536 }
{
    let (number, x) = match a {
        Ok(x) => (0, x),
        Err(refusal) => (refusal.number(), 0.0),
    };
    out.begin::<1>(number as u64);
    out.put_f32(x)
}

// Document 01's number for the answer, and the volume.
fn put_change(out: &mut Text, a: Result<Volume, Refusal>)
    ensures { length out.new ≡ min (length out.old + 56) 65536 }
{
    let (number, v) = match a {
        Ok(v) => (0, v),
        Err(refusal) => (refusal.number(), Volume::Static(0.0)),
    };
    out.begin::<1>(number as u64);
    out.put_volume(v)
}

fn volume_of(fields: &Record) -> Volume {
    let from = f32_at(fields, 40);
    if fields[1] == 0 {
        return Volume::Static(from);
    }
    Volume::Linear {
        time_start: usize_at(fields, 8),
        time_end: usize_at(fields, 16),
        value_start: from,
        value_end: f32_at(fields, 44),
    }
}
