// Whether lines have room, which is known before a byte is written. Keys, values and the marks, which are one number, stay apart, as `write_marked_lines`
// takes them, and what is written has other keys than what is counted: those up to the last `=`.
ghost use Rattle.std.specs.Prelude.{true, ◌≡◌, ◌≤◌, leb, length};
ghost use Rattle.text_number.specs.Marked.{marked_by};
ghost use Rattle.text_schema.specs.Schema.{keys_of};
ghost use Rattle.text_writer.specs.Write.{written_marked_lines};

use crate::number_length;
use integer::magnitude;
use text_line::piece::piece_end;

// Whether short numbers are sure to fit: none has more than seven digits, and there is room for as many, and for a mark each where there are marks. No digit is
// counted.
fn short_lines_fit(keys: &[u8], values: &[i64], marks: u64, room: usize) -> bool
    ensures { result ≡ true → length (written_marked_lines (keys_of keys.now) (marked_by marks values.now)) ≤ room }
{
    if room < keys.len() {
        return false;
    }
    let most = 9 + (0 < marks) as usize;
    if (room - keys.len()) / most < values.len() {
        return false;
    }
    values.iter().all(|z| magnitude(*z) < 10000000)
}

// Whether the text of the lines is no longer than the room for it, by the digits of each number.
fn counted_lines_fit(keys: &[u8], values: &[i64], mut marks: u64, mut room: usize) -> bool
    ensures { result ≡ leb (length (written_marked_lines (keys_of keys.now) (marked_by marks values.now))) room }
{
    let mut from: usize = 0;
    for z in values {
        let end = piece_end(keys, from, b'=');
        if end == from {
            return true;
        }
        let line = end - from + number_length(*z) + (marks % 2) as usize + 1;
        if room < line {
            return false;
        }
        room -= line;
        from = end;
        marks /= 2;
    }
    true
}

// Whether the text of the lines is no longer than the room for it.
pub(crate) fn lines_fit(keys: &[u8], values: &[i64], marks: u64, room: usize) -> bool
    ensures { result ≡ leb (length (written_marked_lines (keys_of keys.now) (marked_by marks values.now))) room }
{
    short_lines_fit(keys, values, marks, room) || counted_lines_fit(keys, values, marks, room)
}
