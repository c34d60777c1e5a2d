// The operations, each on the text and on the numbers that follow in the file, and what is written of their answers. A reader, a writer and a text
// stay three: each function takes those that it uses.
use crate::held::{read_values, write_values};
use crate::input::{read_count, read_number, read_numbers};
use crate::output::show_answer;
use ordc::book::ordc_book;
use ordc::curves_length::ordc_curves_length;
use ordc::price::ordc_price;
use ordc::read_curves::ordc_read_curves;
use ordc::settle::ordc_settle;
use ordc::write_curves::ordc_write_curves;
use ordc::write_page::ordc_write_page;
use program_curves::input::feed;
use program_curves::output::finish;
use program_curves::start;
use program_page::page_text;
use program_price::price_text;
use std::io;
use std::io::{Read, Write};
use text_line::piece::part;

// The arrays that an operation is lent are shown on a refusal too, where they have to stand as before.
fn book(input: &mut impl Read, out: &mut impl Write, text: &[u8]) -> io::Result<()> {
    let mut history = [0i64; 72];
    read_numbers(input, &mut history)?;
    let refusal = ordc_book(&mut history, text);
    show_answer(out, refusal, &history)
}

fn settle(input: &mut impl Read, out: &mut impl Write) -> io::Result<()> {
    let mut history = [0i64; 72];
    read_numbers(input, &mut history)?;
    let voll = read_number(input)?;
    let floor = read_number(input)?;
    let mut curves = [7i64; 50];
    let refusal = ordc_settle(&history, voll, floor, &mut curves);
    show_answer(out, refusal, &curves)
}

fn read(out: &mut impl Write, text: &[u8]) -> io::Result<()> {
    let mut curves = [7i64; 50];
    let refusal = ordc_read_curves(text, &mut curves);
    show_answer(out, refusal, &curves)
}

// A checksum with one more value.
pub(crate) fn add(sum: u64, value: u64) -> u64 {
    (257 * (sum % 1000000007) + value % 1000000007 + 1) % 1000000007
}

pub(crate) fn checksum(bytes: &[u8]) -> u64 {
    let mut sum: u64 = 0;
    for byte in bytes {
        sum = add(sum, u64::from(*byte));
    }
    sum
}

// The length of a curve set's text, which is not written for it.
fn curves_length(input: &mut impl Read, out: &mut impl Write) -> io::Result<()> {
    let mut curves = [0i64; 50];
    read_numbers(input, &mut curves)?;
    let mut length: usize = 7;
    let refusal = ordc_curves_length(&curves, &mut length);
    show_answer(out, refusal, &[])?;
    write!(out, " {length}")
}

// The text is the buffer that is written to.
fn write(input: &mut impl Read, out: &mut impl Write, text: &mut [u8]) -> io::Result<()> {
    let mut curves = [0i64; 50];
    read_numbers(input, &mut curves)?;
    let mut length: usize = 7;
    let refusal = ordc_write_curves(&curves, text, &mut length);
    show_answer(out, refusal, &[])?;
    write!(out, " {length} {}", checksum(text))
}

// The text is the buffer that a page is written to. Every page has the same length, so that none is given back.
fn write_page(input: &mut impl Read, out: &mut impl Write, text: &mut [u8]) -> io::Result<()> {
    let mut curves = [0i64; 50];
    read_numbers(input, &mut curves)?;
    let refusal = ordc_write_page(&curves, text);
    show_answer(out, refusal, &[])?;
    write!(out, " {}", checksum(text))
}

fn price(input: &mut impl Read, out: &mut impl Write, text: &[u8]) -> io::Result<()> {
    let mut curves = [0i64; 50];
    read_numbers(input, &mut curves)?;
    let mut prices = [7i64; 6];
    let refusal = ordc_price(&curves, text, &mut prices);
    show_answer(out, refusal, &prices)
}

// The lines that a program prints, a space for the end of each. Bytes that no line end follows are shown too, so that none is hidden.
fn show_printed(out: &mut impl Write, output: &[u8]) -> io::Result<()> {
    for line in output.split_inclusive(|byte| *byte == b'\n') {
        let Some(ended) = line.strip_suffix(b"\n") else {
            return out.write_all(line);
        };
        out.write_all(ended)?;
        out.write_all(b" ")?;
    }
    Ok(())
}

// The program `price` on an input. Beside `run_page`: each has its own size and its own program, and one function for both would take both and be no plainer.
// Here and in the next two, an array of fixed size and how much of it is written, as the programs have it.
fn run_price(out: &mut impl Write, input: &[u8]) -> io::Result<()> {
    let mut output = [0u8; 768];
    let written = price_text(input, &mut output);
    let Some(next) = written else {
        return Ok(());
    };
    show_printed(out, part(&output, 0, next))
}

// The program `page` on an input.
fn run_page(out: &mut impl Write, input: &[u8]) -> io::Result<()> {
    let mut output = [0u8; 1728];
    let written = page_text(input, &mut output);
    let Some(next) = written else {
        return Ok(());
    };
    show_printed(out, part(&output, 0, next))
}

// The program `curves` on a text in two parts.
fn run_curves(input: &mut impl Read, out: &mut impl Write, text: &[u8]) -> io::Result<()> {
    let first = read_count(input, text.len())?;
    let mut buffer = [0u8; 65536];
    let begun = feed(start(), &mut buffer, part(text, 0, first));
    let ended = feed(begun, &mut buffer, part(text, first, text.len()));
    let mut output = [0u8; 768];
    let length = finish(ended, &buffer, &mut output);
    show_printed(out, part(&output, 0, length))
}

// The operation whose number follows in the file. By this number: each arm is one call, and not all take the same, so that closures are no plainer.
pub(crate) fn operate(
    input: &mut impl Read,
    out: &mut impl Write,
    text: &mut [u8],
) -> io::Result<()> {
    match read_count(input, 11)? {
        0 => book(input, out, text),
        1 => settle(input, out),
        2 => read(out, text),
        3 => write(input, out, text),
        4 => price(input, out, text),
        5 => run_price(out, text),
        6 => run_curves(input, out, text),
        7 => write_page(input, out, text),
        8 => run_page(out, text),
        9 => read_values(input, out, text),
        10 => write_values(input, out, text),
        _ => curves_length(input, out),
    }
}
