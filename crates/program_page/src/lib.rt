// The program `page` as a function from input bytes to output bytes.
#![tactic(auto)]

ghost use Rattle.std.specs.Prelude.{◌≡◌, true};
ghost use Rattle.text_writer.specs.Write.{TextWritten};
ghost use Rattle.curve_set.specs.Curves.{curves_in_range};
ghost use Rattle.curve_page.specs.Page.{page_of};
ghost use Rattle.program_page.specs.Program.{page_output};

use curve_page::write_page;
use curve_set::CurveSet;
use curve_text::read_curves;
use text_writer::output::write_refusal;

// The page of a curve set in range. Every page has the same length, so that `write_page`, which docs/STATEMENTS.md names, does not give it.
fn print_page(curves: CurveSet, out: &mut [u8]) -> Option<usize>
    requires { curves_in_range curves ≡ true }
    ensures { TextWritten (page_of curves) out.old 0 out.new result }
{
    match write_page(curves, out) {
        Ok(()) => Some(1728),
        Err(_) => None,
    }
}

// What `page` prints of an input, at the start of a lent buffer; nothing where the buffer is too short.
pub fn page_text(input: &[u8], out: &mut [u8]) -> Option<usize>
    ensures { TextWritten (page_output input.now) out.old 0 out.new result }
{
    match read_curves(input) {
        Ok(curves) => print_page(curves, out),
        Err(found) => write_refusal(out, found, b"curves"),
    }
}
