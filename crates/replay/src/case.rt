// A case: its text, and an operation on it.
use crate::input::read_count;
use crate::operation::operate;
use program_input::read_full;
use std::io;
use std::io::{Read, Write};

// The byte that follows in the file, laid everywhere.
fn fill(input: &mut impl Read, rest: &mut [u8]) -> io::Result<()> {
    let byte = read_count(input, 255)? as u8;
    rest.fill(byte);
    Ok(())
}

// The text starts with bytes of the one before, goes on with bytes of the file, and ends with one byte again and again.
pub(crate) fn run_case(
    input: &mut impl Read,
    out: &mut impl Write,
    text: &mut [u8],
) -> io::Result<()> {
    let end = read_count(input, text.len())?;
    let stop = read_count(input, end)?;
    let start = read_count(input, stop)?;
    read_full(input, &mut text[start..stop])?;
    fill(input, &mut text[stop..end])?;
    operate(input, out, &mut text[..end])?;
    writeln!(out)
}
