// Writing into a lent buffer: the length is known before a byte is written, and bytes after the text stay. What writing gives is where the next byte stands, or None
// where the buffer is shorter than the text (14). A buffer and a place in it stay apart: `TextLaid` and `TextWritten` speak of both, and a struct of the two would
// be taken apart and made again around each call.
#![tactic(auto)]

ghost use Rattle.std.specs.Prelude.{◌≡◌, ◌≤◌, ◌+◌, ◌-◌, length};
ghost use Rattle.text_number.specs.Number.{digits_of, written_number};
ghost use Rattle.text_writer.specs.internal.Signed.{signed, signed_value, cut_to};
ghost use Rattle.text_writer.specs.Write.{TextLaid, LinesWritten};

use crate::marked::write_marked_lines;
use integer::magnitude;

pub mod line;
pub mod marked;
pub mod output;
mod room;
pub mod row;

// How many digits a number has, four at a time: most numbers need one division or none, and no test that is hard to foresee.
#[tactic(auto, using(text_number::proofs::WrittenDigits::count_bound, crate::proofs::DigitCount::one_at_most))]
fn digit_count(mut n: u64) -> usize
    ensures { result ≡ length (digits_of n) }
{
    let mut count: usize = 0;
    while 10000 <= n {
        n /= 10000;
        count += 4;
    }
    count + 1 + (10 <= n) as usize + (100 <= n) as usize + (1000 <= n) as usize
}

// How many bytes a number has as it is written.
#[tactic(auto, using(text_number::proofs::WrittenDigits::count_bound, crate::proofs::DigitCount::one_at_most))]
pub fn number_length(z: i64) -> usize
    ensures { result ≡ length (written_number z) }
{
    digit_count(magnitude(z)) + (z < 0) as usize
}

// Bytes as they are; where the next byte stands.
fn put_bytes(buffer: &mut [u8], at: usize, bytes: &[u8]) -> usize
    requires { at + length bytes.now ≤ length buffer.old }
    ensures { TextLaid bytes.now buffer.old at buffer.new result }
{
    for (i, &byte) in bytes.iter().enumerate() {
        buffer[at + i] = byte;
    }
    at + bytes.len()
}

// The digits of a number before a position, the last one first, as far as they stand from another position on; where the first of them stands.
// By hand and no `Display`, as all writing in this crate: `TextLaid` says each byte that the lent buffer then has.
fn put_digits(buffer: &mut [u8], start: usize, end: usize, mut n: u64) -> usize
    requires { (start ≤ end) × (end ≤ length buffer.old) }
    ensures { TextLaid (cut_to (end - start) (digits_of n)) buffer.old result buffer.new end }
{
    for place in (start..end).rev() {
        buffer[place] = b'0' + (n % 10) as u8;
        n /= 10;
        if n == 0 {
            return place;
        }
    }
    start
}

// A number by its sign and its magnitude, laid in the same way; where its first byte stands.
// Sign and magnitude stay two values, here and in `put_value`: the magnitude of the least number is no i64.
fn put_number(buffer: &mut [u8], start: usize, end: usize, negative: bool, n: u64) -> usize
    requires { (start ≤ end) × (end ≤ length buffer.old) }
    ensures { TextLaid (cut_to (end - start) (signed negative n)) buffer.old result buffer.new end }
{
    let first = put_digits(buffer, start, end, n);
    if !negative {
        return first;
    }
    if first <= start {
        return first;
    }
    buffer[first - 1] = b'-';
    first - 1
}

// A number and byte 10; where the next line starts.
fn put_value(buffer: &mut [u8], at: usize, negative: bool, n: u64) -> usize
    requires { at + length (signed_value negative n) ≤ length buffer.old }
    ensures { TextLaid (signed_value negative n) buffer.old at buffer.new result }
{
    let end = at + digit_count(n) + negative as usize;
    put_number(buffer, at, end, negative, n);
    buffer[end] = b'\n';
    end + 1
}

// The text of the values under their keys, at a position of a lent buffer: lines of which no number is marked.
#[tactic(auto, using(crate::proofs::MarkedLines::lines_unmarked))]
pub fn write_lines(buffer: &mut [u8], at: usize, keys: &[u8], values: &[i64]) -> Option<usize>
    ensures { LinesWritten keys.now values.now buffer.old at buffer.new result }
{
    write_marked_lines(buffer, at, keys, values, 0)
}
