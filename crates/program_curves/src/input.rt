// A part of the input, of any length.
ghost use Rattle.std.specs.Prelude.{true, false, ◌≡◌, ◌≤◌, ◌+◌, ◌<◌, length, take, get_or};
ghost use Rattle.program_curves.specs.Stream.{Fed, is_refused};
ghost use Rattle.program_curves.specs.internal.Feeding.{stops_at, Ready, Stored};

use crate::ending::{end_byte, stops};
use crate::{Stream, is_refused};

// Bytes of a line or an hour stored, up to one that ends it or finds no room; how many these are.
fn store(stream: &Stream, buffer: &mut [u8; 65536], input: &[u8]) -> usize
    requires ready { Ready stream.now buffer.old }
    requires waits { is_refused stream.now.stage ≡ false }
    ensures stored { Stored stream.now buffer.old input.now buffer.new result }
    ensures stops { result < length input.now → stops_at stream.now.stage (stream.now.held + result) buffer.new (get_or input.now result 0) ≡ true }
{
    for (stored, byte) in input.iter().enumerate() {
        let held = stream.held + stored;
        if stops(stream.stage, buffer, held, *byte) {
            return stored;
        }
        buffer[held] = *byte;
    }
    input.len()
}

// A part of the input; the buffer lent is the same one at each part.
pub fn feed(mut stream: Stream, buffer: &mut [u8; 65536], part: &[u8]) -> Stream
    ensures { Fed stream buffer.old part.now result buffer.new }
{
    // No more bytes are held than the buffer has.
    stream.held = stream.held.min(buffer.len());
    let mut rest = part;
    while !is_refused(stream.stage) {
        let stored = store(&stream, buffer, rest);
        stream.held += stored;
        let Some((byte, more)) = rest[stored..].split_first() else {
            return stream;
        };
        stream = end_byte(stream, buffer, *byte);
        rest = more;
    }
    stream
}
