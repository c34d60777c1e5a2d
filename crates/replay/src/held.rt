// The operations on a snapshot held as values: a header of eight numbers, a row of 32 bytes for each id, and a row of nine numbers for each resource.
// Three arrays, as the C interface has them.
use crate::input::{read_count, read_number};
use crate::operation::{add, checksum};
use crate::output::show_answer;
use ordc::read_snapshot::ordc_read_snapshot;
use ordc::snapshot_length::ordc_snapshot_length;
use ordc::write_snapshot::ordc_write_snapshot;
use std::io;
use std::io::{Read, Write};

// Space for one resource more than a snapshot can have. Two operations have it, so that its lengths stand here. It has two types, and so two functions.
fn id_space() -> [u8; 131104] {
    [0; 131104]
}

fn number_space() -> [i64; 36873] {
    [0; 36873]
}

// The longest buffer; the longest text has 516198 bytes. Its length stands here, as those of the two above.
fn buffer_space() -> [u8; 524288] {
    [0; 524288]
}

// No case has more edits.
const MOST_EDITS: usize = 1000;

// Each byte tells its place. Bytes and numbers by two functions: each tells its place in another way.
fn lay_bytes(bytes: &mut [u8]) {
    for (i, byte) in bytes.iter_mut().enumerate() {
        *byte = (i % 251) as u8;
    }
}

// Each number tells its place, from 7 on.
fn lay_numbers(numbers: &mut [i64]) {
    for (i, number) in numbers.iter_mut().enumerate() {
        *number = i as i64 + 7;
    }
}

// A checksum with one more number: its sign, then its size.
fn add_number(sum: u64, z: i64) -> u64 {
    add(add(sum, u64::from(z < 0)), z.unsigned_abs())
}

// Beside `checksum`: a number goes in by its sign and its size, a byte as one value.
fn checksum_of_numbers(numbers: &[i64]) -> u64 {
    let mut sum: u64 = 0;
    for number in numbers {
        sum = add_number(sum, *number);
    }
    sum
}

// The text read into what is lent, all of which is shown on a refusal too.
fn show_read(
    out: &mut impl Write,
    text: &[u8],
    ids: &mut [u8],
    numbers: &mut [i64],
) -> io::Result<()> {
    lay_bytes(ids);
    lay_numbers(numbers);
    let mut header = [7i64; 8];
    let refusal = ordc_read_snapshot(text, &mut header, ids, numbers);
    show_answer(out, refusal, &header)?;
    write!(out, " {} {}", checksum(ids), checksum_of_numbers(numbers))
}

// The text read into so many bytes and so many numbers.
pub(crate) fn read_values(
    input: &mut impl Read,
    out: &mut impl Write,
    text: &[u8],
) -> io::Result<()> {
    let mut ids = id_space();
    let mut numbers = number_space();
    let id_bytes = read_count(input, 131104)?;
    let places = read_count(input, 36873)?;
    show_read(out, text, &mut ids[..id_bytes], &mut numbers[..places])
}

// A place and a value; a place that there is not stays out of it. Beside `edit_ids`: a number and a byte are read in two ways.
fn edit_numbers(input: &mut impl Read, numbers: &mut [i64]) -> io::Result<()> {
    let place = read_count(input, numbers.len())?;
    let value = read_number(input)?;
    if place < numbers.len() {
        numbers[place] = value;
    }
    Ok(())
}

fn edit_header(input: &mut impl Read, header: &mut [i64; 8]) -> io::Result<()> {
    let place = read_count(input, 7)?;
    header[place] = read_number(input)?;
    Ok(())
}

fn edit_ids(input: &mut impl Read, ids: &mut [u8]) -> io::Result<()> {
    let place = read_count(input, ids.len())?;
    let byte = read_count(input, 255)? as u8;
    if place < ids.len() {
        ids[place] = byte;
    }
    Ok(())
}

// An edit: its array, its place and its value. By the number that stands in the file: each arm is one call with another array, so that closures are no plainer.
fn edit(
    input: &mut impl Read,
    header: &mut [i64; 8],
    ids: &mut [u8],
    numbers: &mut [i64],
) -> io::Result<()> {
    match read_count(input, 2)? {
        0 => edit_header(input, header),
        1 => edit_ids(input, ids),
        _ => edit_numbers(input, numbers),
    }
}

// As many edits as the case says that it has.
fn edit_values(
    input: &mut impl Read,
    header: &mut [i64; 8],
    ids: &mut [u8],
    numbers: &mut [i64],
) -> io::Result<()> {
    let count = read_count(input, MOST_EDITS)?;
    for _ in 0..count {
        edit(input, header, ids, numbers)?;
    }
    Ok(())
}

// The length of the values' text, then the text written into what is lent.
fn show_written(
    out: &mut impl Write,
    header: &[i64; 8],
    ids: &[u8],
    numbers: &[i64],
    buffer: &mut [u8],
) -> io::Result<()> {
    let mut length: usize = 7;
    let asked = ordc_snapshot_length(header, ids, numbers, &mut length);
    show_answer(out, asked, &[])?;
    write!(out, " {length} ")?;
    lay_bytes(buffer);
    let mut written: usize = 7;
    let refusal = ordc_write_snapshot(header, ids, numbers, buffer, &mut written);
    show_answer(out, refusal, &[])?;
    write!(out, " {written} {}", checksum(buffer))
}

// So many bytes and so many numbers of the values, written into a buffer of so many bytes.
fn write_rows(
    input: &mut impl Read,
    out: &mut impl Write,
    header: &[i64; 8],
    ids: &[u8],
    numbers: &[i64],
) -> io::Result<()> {
    let id_bytes = read_count(input, ids.len())?;
    let places = read_count(input, numbers.len())?;
    let mut buffer = buffer_space();
    let size = read_count(input, 524288)?;
    show_written(
        out,
        header,
        &ids[..id_bytes],
        &numbers[..places],
        &mut buffer[..size],
    )
}

// The values of the text, edited and written. Where the text is refused, each of them is 0 before the edits.
pub(crate) fn write_values(
    input: &mut impl Read,
    out: &mut impl Write,
    text: &[u8],
) -> io::Result<()> {
    let mut header = [0i64; 8];
    let mut ids = id_space();
    let mut numbers = number_space();
    ordc_read_snapshot(text, &mut header, &mut ids, &mut numbers);
    edit_values(input, &mut header, &mut ids, &mut numbers)?;
    write_rows(input, out, &header, &ids, &numbers)
}
