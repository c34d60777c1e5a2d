// Each refusal and each accepted form of the text readers and the writer. The expected output was worked out by hand from document 01.
// The readers' cases are the standard input, in the order of the output. A case is a letter that says what the text is read as (`cases.rt`
// lists the letters), then the text, then the mark `|`, which no text contains. So a text may be empty and may hold any other byte, byte 10 and
// byte 0 among them.
#![tactic(auto)]

mod case;
mod cases;
mod show;
mod write;

use case::number_case;
use cases::all_cases;
use std::alloc::Global;
use std::io;
use std::io::{Read, Write};
use write::write_into;

// The cases are the first so many bytes of the standard input.
const MOST_BYTES: u64 = 4096;

// The readers' cases: those of an input.
fn reads(alloc: Global, input: impl Read + Drop, out: &mut impl Write) -> io::Result<()> {
    let mut cases = Vec::new(alloc);
    input.take(MOST_BYTES).read_to_end(&mut cases)?;
    all_cases(out, &cases)
}

// A line of 1 MiB, all digits but for its key and its end.
fn long_line() -> [u8; 1048576] {
    [b'1'; 1048576]
}

// Its key of two bytes and its end, each byte by its place: three bytes in all.
fn long_number(out: &mut impl Write) -> io::Result<()> {
    let mut text = long_line();
    text[0] = b'x';
    text[1] = b'=';
    text[1048575] = b'\n';
    number_case(out, &text, 0, -20, 99)
}

fn main(rt: HostRuntime) -> io::Result<()> {
    let mut out = rt.stdout();
    reads(rt.alloc(), rt.stdin(), &mut out)?;
    write_into(&mut out, 23)?;
    write_into(&mut out, 26)?;
    write_into(&mut out, 22)?;
    write_into(&mut out, 0)?;
    long_number(&mut out)
}
