// A row of a table: its name, then numbers in columns, each behind a space and right-aligned, then byte 10.
ghost use Rattle.std.specs.Prelude.{◌≡◌, ◌≤◌, ◌+◌, ltb, length};
ghost use Rattle.text_writer.specs.Row.{spaces, number_cell, written_cells, written_row};
ghost use Rattle.text_writer.specs.Write.{TextLaid, TextWritten};

use crate::{put_bytes, put_number};
use integer::magnitude;

// So many spaces; where the next byte stands.
fn put_spaces(buffer: &mut [u8], at: usize, count: usize) -> usize
    requires { at + count ≤ length buffer.old }
    ensures { TextLaid (spaces count) buffer.old at buffer.new result }
{
    let end = at + count;
    buffer[at..end].fill(b' ');
    end
}

// A space and a number right-aligned in a width; where the next byte stands.
fn put_cell(buffer: &mut [u8], at: usize, width: usize, z: i64) -> usize
    requires { at + length (number_cell width z) ≤ length buffer.old }
    ensures { TextLaid (number_cell width z) buffer.old at buffer.new result }
{
    let start = at + 1;
    let end = start + width;
    let first = put_number(buffer, start, end, z < 0, magnitude(z));
    put_spaces(buffer, at, first - at);
    end
}

// Whether the cells and one byte more have room, which is known before a byte is written.
// Widths and values stay two slices from here on: docs/STATEMENTS.md names `write_row`, whose definition answers for slices of unequal lengths too.
fn cells_fit(widths: &[usize], values: &[i64], mut room: usize) -> bool
    ensures { result ≡ ltb (length (written_cells widths.now values.now)) room }
{
    for (width, _) in widths.iter().zip(values) {
        if room <= *width {
            return false;
        }
        room -= *width + 1;
    }
    0 < room
}

// The cells, which the buffer has room for; where the next byte stands.
fn put_cells(buffer: &mut [u8], mut at: usize, widths: &[usize], values: &[i64]) -> usize
    requires { at + length (written_cells widths.now values.now) ≤ length buffer.old }
    ensures { TextLaid (written_cells widths.now values.now) buffer.old at buffer.new result }
{
    for (width, z) in widths.iter().zip(values) {
        at = put_cell(buffer, at, *width, *z);
    }
    at
}

// A row at a position of a lent buffer.
pub fn write_row(
    buffer: &mut [u8],
    at: usize,
    name: &[u8],
    widths: &[usize],
    values: &[i64],
) -> Option<usize>
    ensures { TextWritten (written_row name.now widths.now values.now) buffer.old at buffer.new result }
{
    let room = buffer.len().checked_sub(at)?.checked_sub(name.len())?;
    if !cells_fit(widths, values, room) {
        return None;
    }
    let start = put_bytes(buffer, at, name);
    let end = put_cells(buffer, start, widths, values);
    buffer[end] = b'\n';
    Some(end + 1)
}
