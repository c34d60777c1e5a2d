// One case of a number, a word, an id or lines by a schema: the text is read, and what was read or the refusal is shown.
use crate::show::{next_line, show_fault};
use std::io;
use std::io::Write;
use text_id::is_id;
use text_line::end_at;
use text_line::line::{line_value, value_fault};
use text_number::{number_of, number_refusal};
use text_schema::read_lines;
use text_word::is_word;

pub(crate) fn number_case(
    out: &mut impl Write,
    text: &[u8],
    at: usize,
    low: i64,
    high: i64,
) -> io::Result<()> {
    let value = line_value(text, at, b"x=");
    let n = number_of(value, low, high);
    let Ok(z) = n else {
        return show_fault(out, text, value_fault(text, at, b"x=", number_refusal(n)));
    };
    writeln!(out, "value={z} next={}", next_line(at, b"x=", value))
}

// The words of a status, in the order of document 01. A list of their own: the text crates know no statuses, and are checked here alone.
const STATUSES: [&[u8]; 7] = [
    b"ON",
    b"OFF",
    b"OFFNS",
    b"ONTEST",
    b"STARTUP",
    b"SHUTDOWN",
    b"OUT",
];

pub(crate) fn word_case(out: &mut impl Write, text: &[u8]) -> io::Result<()> {
    let value = line_value(text, 0, b"status=");
    let Some(index) = STATUSES.iter().position(|word| is_word(value, word)) else {
        return show_fault(out, text, value_fault(text, 0, b"status=", 6));
    };
    writeln!(
        out,
        "index={index} next={}",
        next_line(0, b"status=", value)
    )
}

pub(crate) fn id_case(out: &mut impl Write, text: &[u8], key: &[u8]) -> io::Result<()> {
    let value = line_value(text, 0, key);
    if !is_id(value) {
        return show_fault(out, text, value_fault(text, 0, key, 6));
    }
    out.write_all(b"id=")?;
    out.write_all(value)?;
    writeln!(out, " next={}", next_line(0, key, value))
}

pub(crate) fn lines_case(out: &mut impl Write, text: &[u8]) -> io::Result<()> {
    let lows = [1i64, 0, -20];
    let highs = [12i64, 23, 20];
    let mut values = [0i64; 3];
    let read = read_lines(text, 0, b"month=hour=tie=", &lows, &highs, &mut values);
    match read.and_then(|next| end_at(text, next)) {
        Ok(end) => {
            let [month, hour, tie] = values;
            writeln!(out, "values={month},{hour},{tie} next={end}")
        }
        Err(fault) => show_fault(out, text, fault),
    }
}
