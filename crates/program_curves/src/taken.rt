// The stream after a whole line or hour was taken.
ghost use Rattle.std.specs.Prelude.{[], ◌≡◌, ◌≤◌};
ghost use Rattle.curve_text.specs.CurveText.{voll_field, floor_field};
ghost use Rattle.program_curves.specs.Stream.{state_of, stream_of, refused_settle, voll_taken, floor_taken, hour_taken, hour_too_long};
ghost use Rattle.program_curves.specs.internal.Feeding.{line_of, line_value, field_of, taken_at};
ghost use Rattle.text_line.specs.Field.{field_at};
ghost use Rattle.text_number.specs.Field.{number_field};
ghost use Rattle.curve_booking.specs.Booking.{booked};

use crate::{Stage, Stream};
use curve_booking::book;
use curve_record::Record;
use curve_record::possible::record_possible;
use curve_set::{GREATEST_FLOOR, GREATEST_VOLL, LEAST_FLOOR, LEAST_VOLL};
use text_line::line::{line_value, value_fault};
use text_number::{number_of, number_refusal};
use text_refusal::refusal::{Fault, Refusal};

// The stream at another stage, with a record, and with no bytes held.
fn at_stage(stream: Stream, stage: Stage, history: Record) -> Stream
    ensures { result ≡ record { stage = stage; voll = stream.voll; floor = stream.floor; history = history; held = 0 } }
{
    Stream {
        stage,
        history,
        held: 0,
        ..stream
    }
}

// The stream after the `voll` line, the first, or the `floor` line, the second, was refused.
fn line_refused(stream: Stream, number: u64, line: usize) -> Stream
    ensures { result ≡ stream_of (refused_settle (state_of stream []) number line) }
{
    let found = Refusal { number, line };
    at_stage(stream, Stage::RefusedSettle(found), stream.history)
}

// The number of a line at the start of a text, or the line's fault.
fn line_number(text: &[u8], key: &[u8], low: i64, high: i64) -> Result<i64, Fault>
    ensures { result ≡ line_value (field_at (number_field key.now low high) text.now 0) }
{
    let value = line_value(text, 0, key);
    let n = number_of(value, low, high);
    let Ok(number) = n else {
        return Err(value_fault(text, 0, key, number_refusal(n)));
    };
    Ok(number)
}

// The stream after a whole `voll` line. It stands beside `floor_taken`: what they have in common is `line_number` and `line_refused`; the contracts name two
// definitions, and each sets another field.
fn voll_taken(stream: Stream, text: &[u8]) -> Stream
    ensures { result ≡ stream_of (voll_taken (state_of stream []) (field_at voll_field text.now 0)) }
{
    match line_number(text, b"voll=", LEAST_VOLL, GREATEST_VOLL) {
        Ok(voll) => Stream {
            stage: Stage::Floor,
            voll,
            held: 0,
            ..stream
        },
        Err(fault) => line_refused(stream, fault.number, 1),
    }
}

// The stream after a whole `floor` line.
fn floor_taken(stream: Stream, text: &[u8]) -> Stream
    ensures { result ≡ stream_of (floor_taken (state_of stream []) (field_at floor_field text.now 0)) }
{
    match line_number(text, b"floor=", LEAST_FLOOR, GREATEST_FLOOR) {
        Ok(floor) => Stream {
            stage: Stage::Hours,
            floor,
            held: 0,
            ..stream
        },
        Err(fault) => line_refused(stream, fault.number, 2),
    }
}

// The stream after a whole line of either kind. By the stage, as `taken_at` goes by it: the stages are an enum, and a step as a closure would hide which line
// is taken. That the stage waits for a line is a clause here and in the next one, and no type of the two stages: `Stage` is public, and a type of its own would
// be made from it and turned back at once.
pub(crate) fn line_taken(stream: Stream, text: &[u8]) -> Stream
    requires { 1 ≤ line_of stream.stage }
    ensures { result ≡ stream_of (taken_at stream.stage (state_of stream []) (field_at (field_of stream.stage) text.now 0)) }
{
    match stream.stage {
        Stage::Voll => voll_taken(stream, text),
        _ => floor_taken(stream, text),
    }
}

// The stream after 65537 bytes of a line of either kind, by the stage as in `line_taken`.
pub(crate) fn line_too_long(stream: Stream) -> Stream
    requires { 1 ≤ line_of stream.stage }
    ensures { result ≡ stream_of (refused_settle (state_of stream []) 3 (line_of stream.stage)) }
{
    match stream.stage {
        Stage::Voll => line_refused(stream, 3, 1),
        _ => line_refused(stream, 3, 2),
    }
}

// The stream after a whole hour.
pub(crate) fn hour_taken(stream: Stream, hour: &[u8]) -> Stream
    ensures { result ≡ stream_of (hour_taken (state_of stream []) (booked stream.history hour.now)) }
{
    match book(stream.history, hour) {
        Ok(history) => at_stage(stream, Stage::Hours, history),
        Err(found) => at_stage(stream, Stage::RefusedHour(found), stream.history),
    }
}

// The stream after 65537 bytes of an hour.
pub(crate) fn hour_too_long(stream: Stream) -> Stream
    ensures { result ≡ stream_of (hour_too_long (state_of stream [])) }
{
    let number = if record_possible(stream.history) {
        2
    } else {
        1
    };
    let found = Refusal { number, line: 0 };
    at_stage(stream, Stage::RefusedHour(found), stream.history)
}
