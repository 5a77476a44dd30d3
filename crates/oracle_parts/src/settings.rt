// Part 1: common_types and time_value. The arguments: bytes note at 1, channel at 2, time unit at 3, length kind at 4,
// loop mode at 5 and note-off mode at 6 (units and modes in the order of their declaration, length kinds as in the
// listing's version 2); a whole number n at 8, which is a packed note, an index and a data length; floats x at 16, value at
// 20, rate at 24, tempo at 28; whole numbers numerator at 32, denominator at 36, attack at 40, decay at 48; floats
// speed at 56 and reverse speed at 60.
ghost use Rattle.std.specs.Prelude.{◌≡◌, ◌+◌, length, min};

use common_types::time_value::{
    TimeOrRatio, TimeUnit, TimeValue, calc_quarter_notes_per_bar, calc_samples_per_bar,
    calc_samples_per_quarter_note,
};
use common_types::{LoopMode, Note, NoteOffBehaviour};
use oracle_lines::field::{Record, f32_at, u64_at, usize_at};
use oracle_lines::line::Text;
use oracle_lines::settings::{loop_mode, note_off, params_of, transport};
use refusals::Refusal;

pub fn answer(fields: &Record, out: &mut Text)
    ensures { length out.new ≡ min (length out.old + 134) 65536 }
{
    put_notes(fields, out);
    put_loop_modes(fields, out);
    put_note_off_modes(fields, out);
    put_times(fields, out);
    put_params(fields, out);
    out.end()
}

fn put_notes(fields: &Record, out: &mut Text)
    ensures { length out.new ≡ min (length out.old + 29) 65536 }
{
    let note = Note::new(fields[1], fields[2]);
    put_note(out, note);
    out.put_u64(u64::from(note));
    put_note(out, Note::from(u64_at(fields, 8)))
}

fn put_note(out: &mut Text, note: Note)
    ensures { length out.new ≡ min (length out.old + 6) 65536 }
{
    out.begin::<2>(note.note as u64);
    out.put_u8(note.channel)
}

fn put_loop_modes(fields: &Record, out: &mut Text)
    ensures { length out.new ≡ min (length out.old + 19) 65536 }
{
    let mode = loop_mode(fields[5]);
    out.put::<1>(mode.to_index() as u64);
    out.put_f32(mode.to_f32());
    put_index(
        out,
        LoopMode::from_index(usize_at(fields, 8)).map(|mode| mode.to_index()),
    );
    put_index(
        out,
        LoopMode::from_f32(f32_at(fields, 16)).map(|mode| mode.to_index()),
    )
}

fn put_note_off_modes(fields: &Record, out: &mut Text)
    ensures { length out.new ≡ min (length out.old + 19) 65536 }
{
    let mode = note_off(fields[6]);
    out.put::<1>(mode.to_index() as u64);
    out.put_f32(mode.to_f32());
    put_index(
        out,
        NoteOffBehaviour::from_index(usize_at(fields, 8)).map(|mode| mode.to_index()),
    );
    put_index(
        out,
        NoteOffBehaviour::from_f32(f32_at(fields, 16)).map(|mode| mode.to_index()),
    )
}

// Document 01's number for the answer, and the mode's index.
fn put_index(out: &mut Text, a: Result<usize, Refusal>)
    ensures { length out.new ≡ min (length out.old + 4) 65536 }
{
    let (number, index) = match a {
        Ok(index) => (0, index),
        Err(refusal) => (refusal.number(), 0),
    };
    out.begin::<1>(number as u64);
    out.put::<1>(index as u64)
}

fn put_times(fields: &Record, out: &mut Text)
    ensures { length out.new ≡ min (length out.old + 47) 65536 }
{
    let t = transport(fields);
    let time = TimeValue::from_unit_value(unit(fields[3]), f32_at(fields, 20));
    put_time(out, time);
    out.put_f32(time.as_samples(t));
    out.put_f32(calc_quarter_notes_per_bar(t));
    out.put_f32(calc_samples_per_quarter_note(t));
    out.put_f32(calc_samples_per_bar(t))
}

// The length kind of the listing, and the value.
fn put_time(out: &mut Text, time: TimeValue)
    ensures { length out.new ≡ min (length out.old + 11) 65536 }
{
    match time {
        TimeValue::QuarterNotes(x) => put_kind(out, 0, x),
        TimeValue::Samples(x) => put_kind(out, 1, x),
        TimeValue::Seconds(x) => put_kind(out, 2, x),
        TimeValue::Bars(x) => put_kind(out, 3, x),
    }
}

pub fn put_length(out: &mut Text, of: TimeOrRatio)
    ensures { length out.new ≡ min (length out.old + 11) 65536 }
{
    match of {
        TimeOrRatio::Time(time) => put_time(out, time),
        TimeOrRatio::Ratio(x) => put_kind(out, 4, x),
        TimeOrRatio::WholeBars(x) => put_kind(out, 5, x),
    }
}

fn put_kind(out: &mut Text, kind: u64, x: f32)
    ensures { length out.new ≡ min (length out.old + 11) 65536 }
{
    out.begin::<1>(kind);
    out.put_f32(x)
}

fn put_params(fields: &Record, out: &mut Text)
    ensures { length out.new ≡ min (length out.old + 20) 65536 }
{
    let p = params_of(fields);
    out.put_f32(p.speed());
    out.put_f32(p.loop_length(usize_at(fields, 8)));
    out.put_bool(p.beyond_limits())
}

// By number, as the Rust's side writes it into a record.
fn unit(index: u8) -> TimeUnit {
    match index {
        0 => TimeUnit::SixteenthNotes,
        1 => TimeUnit::QuarterNotes,
        2 => TimeUnit::Seconds,
        3 => TimeUnit::Samples,
        _ => TimeUnit::Bars,
    }
}
