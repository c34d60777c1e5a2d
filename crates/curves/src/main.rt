// The program `curves`: history hours on standard input to the curve text on standard output.
#![tactic(auto)]

use program_curves::input::feed;
use program_curves::output::finish;
use program_curves::{Stream, is_refused, start};
use std::io;
use std::io::{ErrorKind, Read, Write};
use text_line::piece::part;

// No input has more reads than this, so that the program ends.
const MOST_READS: u64 = 1099511627776;

// The stream after the whole input, or after the part of it that is refused: nothing is read behind that. A read that fails is not the end.
fn read_stream(input: &mut impl Read, buffer: &mut [u8; 65536]) -> io::Result<Stream> {
    let mut bytes = [0u8; 65536];
    let mut stream = start();
    for _ in 0..MOST_READS {
        let length = input.read(&mut bytes)?;
        if length == 0 {
            return Ok(stream);
        }
        stream = feed(stream, buffer, &bytes[..length]);
        if is_refused(stream.stage) {
            return Ok(stream);
        }
    }
    Err(io::Error::from(ErrorKind::Other))
}

fn main(rt: HostRuntime) -> io::Result<()> {
    let mut buffer = [0u8; 65536];
    let Ok(stream) = read_stream(&mut rt.stdin(), &mut buffer) else {
        return eprintln!(rt; "curves: standard input could not be read");
    };
    // An array of fixed size and how much of it is written: nothing is put on the heap.
    let mut output = [0u8; 768];
    let length = finish(stream, &buffer, &mut output);
    rt.stdout().write_all(part(&output, 0, length))
}
