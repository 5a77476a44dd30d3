// Part 3: the constants and the defaults of common_types and volume. It has no arguments.
ghost use Rattle.std.specs.Prelude.{◌≡◌, ◌+◌, length, min};

use crate::settings::put_length;
use common_types::{InitParams, LoopMode, NoteOffBehaviour, Params, Transport};
use oracle_lines::line::Text;
use volume::Volume;

pub fn answer(out: &mut Text)
    ensures { length out.new ≡ min (length out.old + 212) 65536 }
{
    let p = Params::default();
    put_constants(out);
    put_transport(out, Transport::default());
    put_params(out, p);
    put_length(out, p.loop_length);
    put_transport(out, p.transport);
    out.put_volume(Volume::default());
    out.end()
}

fn put_constants(out: &mut Text)
    ensures { length out.new ≡ min (length out.old + 8) 65536 }
{
    out.put::<1>(LoopMode::LENGTH as u64);
    out.put::<1>(NoteOffBehaviour::LENGTH as u64);
    out.put_bool(common_types::DEFAULT_AUTO_PASSTHRU);
    out.put_bool(InitParams::default().auto_passthru)
}

fn put_transport(out: &mut Text, t: Transport)
    ensures { length out.new ≡ min (length out.old + 36) 65536 }
{
    out.begin_f32(t.sample_rate);
    out.begin_f32(t.tempo);
    out.begin::<8>(t.time_sig_numerator as u64);
    out.put_u32(t.time_sig_denominator)
}

// All but the loop length and the transport.
fn put_params(out: &mut Text, p: Params)
    ensures { length out.new ≡ min (length out.old + 67) 65536 }
{
    out.begin::<16>(p.attack_samples as u64);
    out.begin::<16>(p.decay_samples as u64);
    out.begin_f32(p.speed);
    out.begin_f32(p.reverse_speed);
    out.begin_f32(p.volume);
    out.begin::<1>(p.loop_mode.to_index() as u64);
    out.begin::<1>(p.note_off_behavior.to_index() as u64);
    out.put_bool(p.auto_passthru)
}
