// The bytes of a line or an hour, up to the last one. `Ready` is a clause here and in input.rt and no invariant of `Stream`, which is public: a caller may hold
// any number, and `feed` makes it fit.
ghost use Rattle.std.specs.Prelude.{◌∷◌, [], true, false, ◌≡◌, ◌≤◌, length, take};
ghost use Rattle.program_curves.specs.Program.{ends_hour};
ghost use Rattle.program_curves.specs.Stream.{Fed, is_refused};
ghost use Rattle.program_curves.specs.internal.Feeding.{line_of, stops_at, Ready};

use crate::taken::{hour_taken, hour_too_long, line_taken, line_too_long};
use crate::{Stage, Stream};

// How many bytes a line or an hour may have, which the buffer has room for.
const MOST_BYTES: usize = 65536;

// Whether a byte is an empty line after the bytes held of an hour: a line starts there, and the byte ends it.
pub(crate) fn ends_hour(buffer: &[u8; 65536], held: usize, byte: u8) -> bool
    requires { (length buffer.now ≡ 65536) × (held ≤ 65536) }
    ensures { result ≡ ends_hour (take held buffer.now) byte }
{
    if byte != 10 {
        return false;
    }
    if held == 0 {
        return true;
    }
    buffer[held - 1] == 10
}

// Whether a byte is the last one of a line or an hour, or finds no room; by the stage, an enum, as `stops_at` goes by it.
pub(crate) fn stops(stage: Stage, buffer: &[u8; 65536], held: usize, byte: u8) -> bool
    requires { (length buffer.now ≡ 65536) × (held ≤ 65536) }
    ensures { result ≡ stops_at stage held buffer.now byte }
{
    if held == MOST_BYTES {
        return true;
    }
    match stage {
        Stage::Hours => ends_hour(buffer, held, byte),
        _ => byte == 10,
    }
}

// The last byte of a line, or one that finds no room. That the stage waits for a line is a clause, for the reason at `line_taken`.
fn line_last_byte(stream: Stream, buffer: &mut [u8; 65536], byte: u8) -> Stream
    requires ready { Ready stream buffer.old × ((stream.held ≡ 65536 → ⊥) → byte ≡ 10) }
    requires line { 1 ≤ line_of stream.stage }
    ensures { Fed stream buffer.old (byte ∷ []) result buffer.new }
{
    let held = stream.held;
    if held == MOST_BYTES {
        return line_too_long(stream);
    }
    buffer[held] = byte;
    line_taken(stream, &buffer[..held + 1])
}

// The last byte of a line or an hour, or one that finds no room.
pub(crate) fn end_byte(stream: Stream, buffer: &mut [u8; 65536], byte: u8) -> Stream
    requires ready { Ready stream buffer.old }
    requires stops { stops_at stream.stage stream.held buffer.old byte ≡ true }
    requires waits { is_refused stream.stage ≡ false }
    ensures { Fed stream buffer.old (byte ∷ []) result buffer.new }
{
    let Stage::Hours = stream.stage else {
        return line_last_byte(stream, buffer, byte);
    };
    let held = stream.held;
    if ends_hour(buffer, held, byte) {
        return hour_taken(stream, &buffer[..held]);
    }
    hour_too_long(stream)
}
