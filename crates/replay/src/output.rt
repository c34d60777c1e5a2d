// What is written of an answer.
use ordc::reply::Reply;
use std::io;
use std::io::Write;

// The refusal's number and its line; 0 is no refusal's number in `Reply`, a struct of the C interface. This is how the stored answers write it.
fn show_refusal(out: &mut impl Write, refusal: Reply) -> io::Result<()> {
    if refusal.number == 0 {
        return write!(out, "accepted");
    }
    write!(out, "refused {} line {}", refusal.number, refusal.line)
}

// An answer: its refusal, and the numbers that the operation was lent.
pub(crate) fn show_answer(out: &mut impl Write, refusal: Reply, values: &[i64]) -> io::Result<()> {
    show_refusal(out, refusal)?;
    for value in values {
        write!(out, " {value}")?;
    }
    Ok(())
}
