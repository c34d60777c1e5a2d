// The rows of a snapshot held as values as they are written, and the whole text.
ghost use Rattle.std.specs.Prelude.{◌≡◌, ◌≤◌, ◌+◌, ◌*◌, length};
ghost use Rattle.text_writer.specs.Write.{TextLaid, laid_at};
ghost use Rattle.pricing_sums.specs.Header.{header_values};
ghost use Rattle.pricing_held.specs.Rows.{held_count, header_held};
ghost use Rattle.pricing_held.specs.Lines.{held_text};
ghost use Rattle.pricing_held.specs.internal.Checks.{row_in, rows_in};
ghost use Rattle.pricing_held_text.specs.internal.RowText.{row_text, rows_text};

use crate::lines::put_text_line;
use crate::numbers::{numbers_length, put_values, values_length};
use crate::words::kind_word;
use pricing_held::{held_number_rows, place_of};
use text_id_table::id_at;
use text_writer::write_lines;

// How many bytes the text of a row has; 10 are those of `id=`, of `kind=` and of byte 10 in both lines.
fn row_length(id: &[u8], values: &[i64; 9]) -> usize
    requires { length id.now ≤ 16 }
    ensures { (result ≡ length (row_text (row_in id.now values.now))) × (result ≤ 256) }
{
    let kind = place_of(values[0]);
    10 + id.len() + kind_word(kind).len() + values_length(values, kind)
}

// How many bytes the text of the rows has. Ids and rows stay apart here and in `put_rows`, as `check_rows` of pricing_held says.
fn rows_length(ids: &[u8], rows: &[[i64; 9]]) -> usize
    requires { (length rows.now ≤ 4096) × (32 * length rows.now ≤ length ids.now) }
    ensures { (result ≡ length (rows_text (rows_in ids.now 0 rows.now))) × (result ≤ 256 * length rows.now) }
{
    let mut total: usize = 0;
    for (i, values) in rows.iter().enumerate() {
        total += row_length(id_at(ids, 0, 32 * i), values);
    }
    total
}

// A row; where the next line starts.
fn put_row(buffer: &mut [u8], at: usize, id: &[u8], values: &[i64; 9]) -> usize
    requires { at + length (row_text (row_in id.now values.now)) ≤ length buffer.old }
    ensures { TextLaid (row_text (row_in id.now values.now)) buffer.old at buffer.new result }
{
    let kind = place_of(values[0]);
    let next = put_text_line(buffer, at, b"id=", id);
    let after = put_text_line(buffer, next, b"kind=", kind_word(kind));
    put_values(buffer, after, values, kind)
}

// The rows from a position on.
fn put_rows(buffer: &mut [u8], at: usize, ids: &[u8], rows: &[[i64; 9]])
    requires { (32 * length rows.now ≤ length ids.now) × (at + length (rows_text (rows_in ids.now 0 rows.now)) ≤ length buffer.old) }
    ensures { buffer.new ≡ laid_at buffer.old at (rows_text (rows_in ids.now 0 rows.now)) }
{
    let mut next = at;
    for (i, values) in rows.iter().enumerate() {
        next = put_row(buffer, next, id_at(ids, 0, 32 * i), values);
    }
}

// The header's numbers as they are written: the eighth is the number of resources held. Not that of pricing_sums, which takes a `Header`: a host's eight
// numbers are written as they are but for the last.
fn header_values(header: &[i64; 8], count: usize) -> [i64; 8]
    requires { count ≤ 4096 }
    ensures { result ≡ header_values (header_held header.now count) }
{
    let [month, hour, lambda, factor, prc, eea1, short, _] = *header;
    [month, hour, lambda, factor, prc, eea1, short, count as i64]
}

// How many bytes the text has; 54 are those of the header's keys and of byte 10 in each line.
pub(crate) fn text_length(header: &[i64; 8], ids: &[u8], numbers: &[i64]) -> usize
    requires { held_count ids.now numbers.now ≤ 4096 }
    ensures { result ≡ length (held_text header.now ids.now numbers.now) }
{
    let rows = held_number_rows(ids, numbers);
    let values = header_values(header, rows.len());
    54 + numbers_length(&values) + rows_length(ids, rows)
}

// The text at the front of a buffer that has room for it. The header's keys are those that reading has, once more: it keeps them to itself.
pub(crate) fn put_text(buffer: &mut [u8], header: &[i64; 8], ids: &[u8], numbers: &[i64])
    requires { (held_count ids.now numbers.now ≤ 4096) × (length (held_text header.now ids.now numbers.now) ≤ length buffer.old) }
    ensures { buffer.new ≡ laid_at buffer.old 0 (held_text header.now ids.now numbers.now) }
{
    let rows = held_number_rows(ids, numbers);
    let values = header_values(header, rows.len());
    let ended = write_lines(
        buffer,
        0,
        b"month=hour=lambda=factor=prc=eea1=short=count=",
        &values,
    );
    put_rows(buffer, ended.unwrap_or(0), ids, rows);
}
