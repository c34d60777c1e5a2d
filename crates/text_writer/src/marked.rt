// Lines of numbers of which some are marked suspect: `?` (63) stands after such a number.
ghost use Rattle.std.specs.Prelude.{◌≡◌, ◌≤◌, ◌<◌, ◌+◌, [], ◌∷◌, ◌++◌, length};
ghost use Rattle.text_line.specs.Piece.{piece_length};
ghost use Rattle.text_number.specs.Marked.{written_marked, marked_by};
ghost use Rattle.text_schema.specs.Schema.{keys_of};
ghost use Rattle.text_writer.specs.internal.Keys.{first_key, WholeKeys};
ghost use Rattle.text_writer.specs.Write.{written_marked_lines, TextLaid, TextWritten};

use crate::room::lines_fit;
use crate::{put_bytes, put_value};
use integer::magnitude;

// The keys up to the last `=`: what follows it is no key.
#[tactic(auto, using(crate::proofs::WholeKeys::whole_before, crate::proofs::WholeKeys::keys_before))]
fn whole_keys<'a>(keys: &'a [u8]) -> &'a [u8]
    ensures { (keys_of result.now ≡ keys_of keys.now) × WholeKeys result.now }
{
    for last in (0..keys.len()).rev() {
        if keys[last] == b'=' {
            return &keys[..=last];
        }
    }
    &keys[..0]
}

// The first of some keys, whose end is found on the way; where the number behind it starts.
fn put_key(buffer: &mut [u8], at: usize, keys: &[u8]) -> usize
    requires { (0 < piece_length 61 keys.now) × (at + piece_length 61 keys.now ≤ length buffer.old) }
    ensures { TextLaid (first_key keys.now) buffer.old at buffer.new result }
{
    let mut i: usize = 0;
    // By a count: its `=` ends the key. A `for`, which asks for the end of the keys at each byte as well, was tried, and lines took two fifths longer to write.
    while keys[i] != b'=' {
        buffer[at + i] = keys[i];
        i += 1;
    }
    buffer[at + i] = b'=';
    at + i + 1
}

// A number, the mark where it has one, byte 10; where the next line starts. A mark takes the place of the byte 10 of the number without it.
fn put_marked_value(buffer: &mut [u8], at: usize, z: i64, suspect: bool) -> usize
    requires { at + length (written_marked (record { number = z; suspect = suspect }) ++ (10 ∷ [])) ≤ length buffer.old }
    ensures { TextLaid (written_marked (record { number = z; suspect = suspect }) ++ (10 ∷ [])) buffer.old at buffer.new result }
{
    let next = put_value(buffer, at, z < 0, magnitude(z));
    if suspect {
        return put_bytes(buffer, next - 1, b"?\n");
    }
    next
}

// The lines, which the buffer has room for; where the next line starts.
fn put_lines(buffer: &mut [u8], mut at: usize, keys: &[u8], values: &[i64], mut marks: u64) -> usize
    requires { WholeKeys keys.now × (at + length (written_marked_lines (keys_of keys.now) (marked_by marks values.now)) ≤ length buffer.old) }
    ensures { TextLaid (written_marked_lines (keys_of keys.now) (marked_by marks values.now)) buffer.old at buffer.new result }
{
    let mut from: usize = 0;
    for z in values {
        if keys.len() <= from {
            return at;
        }
        let start = put_key(buffer, at, &keys[from..]);
        from += start - at;
        at = put_marked_value(buffer, start, *z, marks % 2 == 1);
        marks /= 2;
    }
    at
}

// The text of the values under their keys, at a position of a lent buffer: the lowest binary digit of the marks is the mark of the first value, the next that of the
// second. The marks are one number, as in the rows that hosts lend, and `put_lines` takes them so: docs/STATEMENTS.md names this function.
pub fn write_marked_lines(
    buffer: &mut [u8],
    at: usize,
    keys: &[u8],
    values: &[i64],
    marks: u64,
) -> Option<usize>
    ensures { TextWritten (written_marked_lines (keys_of keys.now) (marked_by marks values.now)) buffer.old at buffer.new result }
{
    let room = buffer.len().checked_sub(at)?;
    if !lines_fit(keys, values, marks, room) {
        return None;
    }
    Some(put_lines(buffer, at, whole_keys(keys), values, marks))
}
