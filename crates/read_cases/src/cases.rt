// Cases held in one text, run one after the other. A case is a letter that says what it is read as, then the text, then the mark `|`,
// which no text contains. Bytes after the last mark are no case; a mark with no letter before it is read as the letter b.
use crate::case::{id_case, lines_case, number_case, word_case};
use std::io;
use std::io::Write;

// By the letter, which stands in the input: each arm is one call with its numbers, so that a table of closures is no plainer.
fn one_case(out: &mut impl Write, letter: u8, text: &[u8]) -> io::Result<()> {
    match letter {
        // A number under the key x: from the start of the text, within a range of two digits.
        b'n' => number_case(out, text, 0, -20, 99),
        // The same on the second line, where the first has four bytes.
        b'l' => number_case(out, text, 4, -20, 99),
        // The same at a position past the end of the text.
        b'p' => number_case(out, text, 99, -20, 99),
        // Every number of 64 bits.
        b'w' => number_case(out, text, 0, i64::MIN, i64::MAX),
        // A range that holds no number.
        b'e' => number_case(out, text, 0, 5, 4),
        // A word under the key status.
        b's' => word_case(out, text),
        b'i' => id_case(out, text, b"id="),
        b'o' => id_case(out, text, b"owner="),
        // The letter b: the numbers month, hour and tie, and then the end of the text.
        _ => lines_case(out, text),
    }
}

pub(crate) fn all_cases(out: &mut impl Write, cases: &[u8]) -> io::Result<()> {
    for case in cases.split_inclusive(|byte| *byte == b'|') {
        let Some(marked) = case.strip_suffix(b"|") else {
            break;
        };
        match marked {
            [letter, text @ ..] => one_case(out, *letter, text)?,
            [] => lines_case(out, marked)?,
        }
    }
    Ok(())
}
