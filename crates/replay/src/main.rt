// Runs the stored cases of `cases.bin` and writes one line for each, its answer.
#![tactic(auto)]

mod case;
mod held;
mod input;
mod operation;
mod output;

use case::run_case;
use input::read_count;
use std::fs::File;
use std::io;
use std::io::{BufReader, BufWriter, Read, Write};

// No file has more cases.
const MOST_CASES: usize = 1000000;

// As many cases as the file says that it has. The text of each is made from the one before.
fn run(input: &mut impl Read, out: &mut impl Write, text: &mut [u8]) -> io::Result<()> {
    let count = read_count(input, MOST_CASES)?;
    for _ in 0..count {
        run_case(input, out, text)?;
    }
    Ok(())
}

// The longest text. Its length stands here, as those of the other spaces in held.rt.
fn text_space() -> [u8; 1048577] {
    [0; 1048577]
}

// Where there is no file, nothing is read.
fn main(rt: HostRuntime) -> io::Result<()> {
    let Ok(file) = File::open(&rt, "cases.bin") else {
        return Ok(());
    };
    let mut input = BufReader::new(rt.alloc(), file)?;
    let mut out = BufWriter::new(rt.alloc(), rt.stdout())?;
    let mut text = text_space();
    run(&mut input, &mut out, &mut text)?;
    out.flush()
}
