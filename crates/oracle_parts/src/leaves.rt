// Part 0: the leaves of binary32. The arguments: floats a at 4 and b at 8, a whole number n at 16.
ghost use Rattle.std.specs.Prelude.{◌≡◌, ◌+◌, length, min};

use oracle_lines::field::{Record, f32_at, u64_at};
use oracle_lines::line::Text;

pub fn answer(fields: &Record, out: &mut Text)
    ensures { length out.new ≡ min (length out.old + 100) 65536 }
{
    let a = f32_at(fields, 4);
    let b = f32_at(fields, 8);
    put_whole(out, u64_at(fields, 16));
    put_one(out, a);
    put_two(out, a, b);
    out.end()
}

// A whole number to a float, from three widths.
fn put_whole(out: &mut Text, n: u64)
    ensures { length out.new ≡ min (length out.old + 27) 65536 }
{
    out.put_f32(binary32::u64_to_f32(n));
    out.put_f32(binary32::usize_to_f32(n as usize));
    out.put_f32(binary32::u32_to_f32((n % 0x1_0000_0000) as u32))
}

fn put_one(out: &mut Text, a: f32)
    ensures { length out.new ≡ min (length out.old + 35) 65536 }
{
    out.put_usize(binary32::f32_to_usize(a));
    out.put_u32(binary32::f32_to_u32(a));
    out.put_f32(binary32::floor(a))
}

fn put_two(out: &mut Text, a: f32, b: f32)
    ensures { length out.new ≡ min (length out.old + 38) 65536 }
{
    out.put_f32(binary32::min(a, b));
    out.put_f32(binary32::max(a, b));
    out.put_f32(binary32::abs(a));
    out.put_bool(binary32::crossing(a, b));
    out.put_f32(a)
}
