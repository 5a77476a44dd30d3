// The lines that answer the questions of a host: records of kinds 12 to 18, of the channel at 8, with room in a list
// for the number at 12; and of kind 20, a waveform in so many columns as the number at 8. Of a list that was lent all is
// shown, but of a waveform's a sum.
ghost use Rattle.std.specs.Prelude.{◌≡◌, ◌+◌, ◌*◌, ◌≤◌, length, min};

use channel::places;
use common_types::Params;
use oracle_lines::field::{Record, u32_at};
use oracle_lines::line::Text;
use questions::{VoiceInfo, VoiceInfos, WaveformSummary};
use refusals::Refusal;
use sampler::Sampler;

// A record's kind and number, with which its text begins.
pub fn put_number(out: &mut Text, kind: u8, number: u8)
    ensures { length out.new ≡ min (length out.old + 6) 65536 }
{
    out.put_u8(kind);
    out.put_u8(number)
}

pub fn query(s: Sampler, p: Params, fields: &Record, out: &mut Text)
    ensures { length out.new ≤ length out.old + 1024 }
{
    let kind = fields[0];
    let channel = u32_at(fields, 8) as usize;
    let room = u32_at(fields, 12) as usize;
    match kind {
        12 => put_count(out, kind, questions::get_frames_processed(s, channel)),
        13 => put_count(out, kind, questions::get_data_len(s, channel)),
        14 => put_told(out, kind, questions::is_recording(s, channel)),
        15 => put_offset(out, kind, questions::get_last_recorded_offset(s, channel)),
        16 => error_text(s, channel, room, out),
        17 => active_notes(s, channel, room, out),
        _ => put_infos(out, questions::get_voice_info(s, channel, p, room)),
    }
}

// The list is as long as the number at 12 says, and the lent memory as that at 16.
pub fn waveform(s: Sampler, fields: &Record, memory: &[u32], out: &mut Text)
    ensures { length out.new ≡ min (length out.old + 41) 65536 }
{
    let mut list = [7.0; 4100];
    let n = (u32_at(fields, 12) as usize).min(list.len());
    let m = (u32_at(fields, 16) as usize).min(memory.len());
    let columns = u32_at(fields, 8) as usize;
    let a = questions::get_waveform_summary(s, columns, &mut list[..n], &memory[..m]);
    put_summary(out, a, &list)
}

// Of the list the sum of the bits of all entries.
pub fn put_summary(out: &mut Text, a: Result<WaveformSummary, Refusal>, list: &[f32])
    ensures { length out.new ≡ min (length out.old + 41) 65536 }
{
    let (number, smallest, largest) = match a {
        Ok(summary) => (0, summary.smallest, summary.largest),
        Err(refusal) => (refusal.number(), 0.0, 0.0),
    };
    put_number(out, 20, number);
    out.put_f32(smallest);
    out.put_f32(largest);
    out.put_u64(
        list.iter().fold(0u64, |sum, x| {
            sum.wrapping_add(binary32::to_bits(*x) as u64)
        }),
    );
    out.end()
}

// Document 01's number for a count, and the count.
fn counted(a: Result<usize, Refusal>) -> (u8, usize) {
    match a {
        Ok(n) => (0, n),
        Err(refusal) => (refusal.number(), 0),
    }
}

// How many bytes a file has that was asked for.
pub fn put_written(out: &mut Text, kind: u8, a: Result<usize, Refusal>)
    ensures { length out.new ≡ min (length out.old + 23) 65536 }
{
    let (number, n) = counted(a);
    put_number(out, kind, number);
    out.put_usize(n)
}

pub fn put_count(out: &mut Text, kind: u8, a: Result<usize, Refusal>)
    ensures { length out.new ≡ min (length out.old + 23) 65536 }
{
    put_written(out, kind, a);
    out.end()
}

pub fn put_told(out: &mut Text, kind: u8, a: Result<bool, Refusal>)
    ensures { length out.new ≡ min (length out.old + 8) 65536 }
{
    let (number, yes) = match a {
        Ok(yes) => (0, yes),
        Err(refusal) => (refusal.number(), false),
    };
    put_number(out, kind, number);
    out.put_bool(yes);
    out.end()
}

// Whether there is one, and the offset.
pub fn put_offset(out: &mut Text, kind: u8, a: Result<Option<usize>, Refusal>)
    ensures { length out.new ≡ min (length out.old + 25) 65536 }
{
    let (number, last) = match a {
        Ok(last) => (0, last),
        Err(refusal) => (refusal.number(), None),
    };
    put_number(out, kind, number);
    out.put_bool(last.is_some());
    out.put_usize(last.unwrap_or(0));
    out.end()
}

// The number and the count with which the line of a list begins.
pub fn put_listed(out: &mut Text, kind: u8, a: Result<usize, Refusal>)
    ensures { length out.new ≡ min (length out.old + 9) 65536 }
{
    let (number, n) = counted(a);
    put_number(out, kind, number);
    out.put::<2>(n as u64)
}

fn error_text(s: Sampler, channel: usize, room: usize, out: &mut Text)
    ensures { length out.new ≡ min (length out.old + 201) 65536 }
{
    let mut text = [b'.'; 64];
    let n = room.min(text.len());
    let a = questions::print_error_info(s, channel, &mut text[..n]);
    put_listed(out, 16, a);
    put_bytes(out, &text);
    out.end()
}

pub fn put_bytes(out: &mut Text, bytes: &[u8])
    ensures { length out.new ≡ min (length out.old + 3 * length bytes.now) 65536 }
{
    prove!(out.len() <= 65536);
    for byte in bytes {
        out.put_u8(*byte);
    }
}

fn active_notes(s: Sampler, channel: usize, room: usize, out: &mut Text)
    ensures { length out.new ≡ min (length out.old + 587) 65536 }
{
    let mut notes = [u64::MAX; 34];
    let n = room.min(notes.len());
    let a = questions::iter_active_notes(s, channel, &mut notes[..n]);
    put_listed(out, 17, a);
    put_notes(out, &notes);
    out.end()
}

pub fn put_notes(out: &mut Text, notes: &[u64])
    ensures { length out.new ≡ min (length out.old + 17 * length notes.now) 65536 }
{
    prove!(out.len() <= 65536);
    for note in notes {
        out.put_u64(*note);
    }
}

// The infos that the answer has.
fn put_infos(out: &mut Text, a: Result<VoiceInfos, Refusal>)
    ensures { length out.new ≤ length out.old + 873 }
{
    put_listed(out, 18, a.map(|infos| infos.count));
    if let Ok(infos) = a {
        for info in &infos.infos[..places(infos.count)] {
            put_info(out, *info);
        }
    }
    out.end()
}

pub fn put_info(out: &mut Text, info: VoiceInfo)
    ensures { length out.new ≡ min (length out.old + 27) 65536 }
{
    out.put_f32(info.start);
    out.put_f32(info.end);
    out.put_f32(info.pos)
}
