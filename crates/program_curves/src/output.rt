// The end of the input: what the program prints.
ghost use Rattle.std.specs.Prelude.{◌≡◌, ◌≤◌, ℤ, length};
ghost use Rattle.text_writer.specs.Output.{refusal_lines};
ghost use Rattle.program_curves.specs.Program.{last_hour, after_hour, settle_refused, settled_text, hours_booked};
ghost use Rattle.program_curves.specs.Stream.{state_of, finished, Printed};

use crate::{Stage, Stream};
use curve_booking::book;
use curve_record::Record;
use curve_settling::settle;
use curve_text::write_curves;
use text_line::piece::part;
use text_refusal::refusal::Refusal;
use text_writer::output::write_refusal;

// The lines of a refusal, with the name of the refused text. The buffer's length is a clause, here and in the functions below: `write_refusal` and
// `write_curves` take slices.
fn print_refusal(found: Refusal, name: &[u8], out: &mut [u8]) -> usize
    requires out_len { length out.old ≡ 768 }
    requires name_len_bound { length name.now ≤ 6 }
    ensures { Printed (refusal_lines found name.now) out.old out.new result }
{
    // The buffer is never too short.
    write_refusal(out, found, name).unwrap_or(0)
}

// The curve text of a record, or the refusal of settling it.
fn print_curves(history: Record, voll: i64, floor: i64, out: &mut [u8]) -> usize
    requires { length out.old ≡ 768 }
    ensures { Printed (settled_text voll floor history) out.old out.new result }
{
    match settle(history, voll, floor) {
        // Settled curves are in range, and the buffer is never too short.
        Ok(curves) => write_curves(curves, out).unwrap_or(0),
        Err(found) => print_refusal(found, b"settle", out),
    }
}

// The record with the last hour booked, where that has a byte.
fn last_booked(history: Record, hour: &[u8]) -> Result<Record, Refusal>
    ensures { (voll floor : ℤ) → hours_booked voll floor history (last_hour hour.now) ≡ after_hour result (settled_text voll floor) }
{
    if hour.is_empty() {
        return Ok(history);
    }
    book(history, hour)
}

// The last hour booked, then the curves.
fn print_hours(stream: Stream, hour: &[u8], out: &mut [u8]) -> usize
    requires { length out.old ≡ 768 }
    ensures { Printed (hours_booked stream.voll stream.floor stream.history (last_hour hour.now)) out.old out.new result }
{
    match last_booked(stream.history, hour) {
        Ok(history) => print_curves(history, stream.voll, stream.floor, out),
        Err(found) => print_refusal(found, b"hour", out),
    }
}

// The refusal of a line that is missing.
fn print_missing(line: usize, out: &mut [u8]) -> usize
    requires { length out.old ≡ 768 }
    ensures { Printed (settle_refused 3 line) out.old out.new result }
{
    print_refusal(Refusal { number: 3, line }, b"settle", out)
}

// What the program prints, at the start of a lent buffer; how many bytes it has. By the stage, an enum, as `finished_at` goes by it.
#[tactic(auto, unfolding(crate::specs::Stream::finished))]
pub fn finish(stream: Stream, buffer: &[u8; 65536], out: &mut [u8; 768]) -> usize
    ensures { Printed (finished (state_of stream buffer.now)) out.old out.new result }
{
    match stream.stage {
        Stage::Voll => print_missing(1, out),
        Stage::Floor => print_missing(2, out),
        Stage::Hours => print_hours(stream, part(buffer, 0, stream.held), out),
        Stage::RefusedHour(found) => print_refusal(found, b"hour", out),
        Stage::RefusedSettle(found) => print_refusal(found, b"settle", out),
    }
}
