// What a case writes: what was read and where the next line starts, or a refusal and its line.
use std::io;
use std::io::Write;
use text_refusal::refusal::{Fault, refusal_of};

// Where the next line starts: after the key, the value and byte 10. The texts of the cases are short, so that the sum does not wrap.
pub(crate) fn next_line(at: usize, key: &[u8], value: &[u8]) -> usize {
    at.wrapping_add(key.len())
        .wrapping_add(value.len())
        .wrapping_add(1)
}

// The refusal of a fault in a text. No `Display` of `Refusal`: this is how these cases are written, and `replay` writes refusals otherwise.
pub(crate) fn show_fault(out: &mut impl Write, text: &[u8], fault: Fault) -> io::Result<()> {
    let refusal = refusal_of(text, fault);
    writeln!(out, "refused={} line={}", refusal.number, refusal.line)
}
