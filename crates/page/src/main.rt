// Prints the page of a curve text: standard input to standard output.
#![tactic(auto)]

use program_input::read_full;
use program_page::page_text;
use std::io;
use std::io::Write;
use text_line::piece::part;

// Beside the `main` of `price`: each program says its own sizes and its own name; one `main` for both would take all of these and be no plainer.
fn main(rt: HostRuntime) -> io::Result<()> {
    // Room for one byte more than the most that is accepted, so that a longer input is seen as such. Here and below, an array of fixed size and
    // how much of it is filled: nothing is put on the heap.
    let mut space = [0u8; 4097];
    let Ok(length) = read_full(&mut rt.stdin(), &mut space) else {
        return eprintln!(rt; "page: standard input could not be read");
    };
    let mut output = [0u8; 1728];
    let written = page_text(&space[..length], &mut output);
    // What is printed has at most 1728 bytes, so the buffer is never too short (`PageOutputIsShort`).
    let Some(next) = written else {
        return Ok(());
    };
    rt.stdout().write_all(part(&output, 0, next))
}
