// The lines of a row after its kind: the status of a generator, and the numbers of the kind.
ghost use Rattle.std.specs.Prelude.{◌≡◌, ◌≤◌, ◌+◌, ◌*◌, length};
ghost use Rattle.text_number.specs.Marked.{marked_by};
ghost use Rattle.text_schema.specs.Schema.{keys_of};
ghost use Rattle.text_schema.specs.Checked.{text_of};
ghost use Rattle.text_writer.specs.Write.{TextLaid, written_marked_lines};
ghost use Rattle.text_writer.specs.internal.Counted.{number_bytes};
ghost use Rattle.pricing_held.specs.Lines.{lines_of_kind};
ghost use Rattle.pricing_held.specs.internal.Checks.{row_of};

use crate::lines::{put_numbers, put_text_line};
use crate::words::status_word;
use integer::magnitude;
use pricing_held::place_of;
use text_writer::number_length;

// How many bytes some numbers have as they are written, of which there are few. Here and in curve_text: as one public function it could ask for no bound, since
// no public function has a `requires`, and without one the sum need not fit.
pub(crate) fn numbers_length(values: &[i64]) -> usize
    requires { length values.now ≤ 8 }
    ensures { (result ≡ number_bytes values.now) × (result ≤ 20 * length values.now) }
{
    let mut total: usize = 0;
    for z in values {
        total += number_length(*z);
    }
    total
}

// How many bytes the lines of a row after its kind have. 46, 27 and 22 are the bytes of the keys and of byte 10 in each line; a mark is one more. The kind
// stays the number that hosts write into the row: `lines_of_kind` of pricing_held goes by it.
pub(crate) fn values_length(values: &[i64; 9], kind: usize) -> usize
    ensures { (result ≡ length (text_of (lines_of_kind kind (row_of values.now)))) × (result ≤ 180) }
{
    let marks = magnitude(values[8]);
    if kind < 4 {
        let status = status_word(place_of(values[1]));
        let marked = (marks % 64).count_ones() as usize;
        return 46 + status.len() + numbers_length(&values[2..8]) + marked;
    }
    let marked = (marks % 16).count_ones() as usize;
    if kind == 4 {
        return 27 + numbers_length(&values[2..6]) + marked;
    }
    22 + numbers_length(&values[2..6]) + marked
}

// The lines of a row after its kind, which stays a number as in `values_length`; where the next line starts. The keys are those that reading has, once more: it
// keeps them to itself.
pub(crate) fn put_values(buffer: &mut [u8], at: usize, values: &[i64; 9], kind: usize) -> usize
    requires { at + length (text_of (lines_of_kind kind (row_of values.now))) ≤ length buffer.old }
    ensures { TextLaid (text_of (lines_of_kind kind (row_of values.now))) buffer.old at buffer.new result }
{
    let marks = magnitude(values[8]);
    if kind < 4 {
        let keys = b"net=lsl=hsl=base=nonspin=cold30=";
        let next = put_text_line(buffer, at, b"status=", status_word(place_of(values[1])));
        return put_numbers(buffer, next, keys, &values[2..8], marks);
    }
    if kind == 4 {
        return put_numbers(buffer, at, b"base=lpc=nonspin=regup=", &values[2..6], marks);
    }
    put_numbers(buffer, at, b"rrsok=net=lpc=rrs=", &values[2..6], marks)
}
