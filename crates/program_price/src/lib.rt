// The program `price` as a function from input bytes to output bytes.
#![tactic(auto)]

ghost use Rattle.std.specs.Prelude.{◌≡◌, true};
ghost use Rattle.text_writer.specs.Write.{TextWritten};
ghost use Rattle.program_price.specs.Program.{before_empty_line, price_lines, price_output};

use curve_text::read_curves;
use pricing::price;
use pricing_adder::price::{Prices, price_values};
use text_line::piece::part;
use text_refusal::refusal::Refusal;
use text_writer::output::write_refusal;
use text_writer::write_lines;

// Where the first empty line starts, or the input's end. Byte by byte and no `position`: whether a line starts hangs on the byte before, as in
// `before_empty_line`.
#[tactic(auto, using(crate::proofs::EmptyLine::empty_line_here, crate::proofs::EmptyLine::line_ended, crate::proofs::EmptyLine::in_line, crate::proofs::EmptyLine::no_empty_line))]
fn empty_line(input: &[u8]) -> usize
    ensures { result ≡ before_empty_line true input.now }
{
    let mut start = true;
    for (i, byte) in input.iter().enumerate() {
        if *byte == 10 {
            if start {
                return i;
            }
            start = true;
        } else {
            start = false;
        }
    }
    input.len()
}

// The six lines of an accepted pricing.
#[tactic(auto, unfolding(crate::specs::Program::price_lines))]
fn print_prices(p: Prices, out: &mut [u8]) -> Option<usize>
    ensures { TextWritten (price_lines p) out.old 0 out.new result }
{
    let values = price_values(p);
    write_lines(out, 0, b"rs=rsns=pis=pins=online=offline=", &values)
}

// A longer input is refused unread.
const MOST_BYTES: usize = 65536;

// What `price` prints of an input, at the start of a lent buffer; nothing where the buffer is too short.
pub fn price_text(input: &[u8], out: &mut [u8]) -> Option<usize>
    ensures { TextWritten (price_output input.now) out.old 0 out.new result }
{
    if MOST_BYTES < input.len() {
        return write_refusal(out, Refusal { number: 2, line: 0 }, b"curves");
    }
    let end = empty_line(input);
    match read_curves(&input[..end]) {
        Ok(curves) => match price(curves, part(input, end + 1, input.len())) {
            Ok(prices) => print_prices(prices, out),
            Err(found) => write_refusal(out, found, b"snapshot"),
        },
        Err(found) => write_refusal(out, found, b"curves"),
    }
}
