// Lines for which there is room, and where the next line starts. These ask for the room, so that they never fail; text_writer can hand out no such function,
// since no public function has a `requires`. Buffer and place stay apart, as in text_writer.
ghost use Rattle.std.specs.Prelude.{[], ◌∷◌, ◌++◌, ◌≤◌, ◌+◌, length};
ghost use Rattle.text_number.specs.Marked.{marked_by};
ghost use Rattle.text_schema.specs.Schema.{keys_of};
ghost use Rattle.text_writer.specs.Write.{TextLaid, written_marked_lines};

use text_writer::line::write_text_line;
use text_writer::marked::write_marked_lines;
use text_writer::write_lines;

// A line of text.
#[tactic(auto, using(crate::proofs::Room::laid_of))]
pub(crate) fn put_text_line(buffer: &mut [u8], at: usize, key: &[u8], text: &[u8]) -> usize
    requires { at + length (key.now ++ (text.now ++ (10 ∷ []))) ≤ length buffer.old }
    ensures { TextLaid (key.now ++ (text.now ++ (10 ∷ []))) buffer.old at buffer.new result }
{
    write_text_line(buffer, at, key, text).unwrap_or(at)
}

// The lines of numbers, of which the marks say which are marked; where there are none, as numbers alone.
#[tactic(auto, using(crate::proofs::Room::laid_of))]
pub(crate) fn put_numbers(
    buffer: &mut [u8],
    at: usize,
    keys: &[u8],
    values: &[i64],
    marks: u64,
) -> usize
    requires { at + length (written_marked_lines (keys_of keys.now) (marked_by marks values.now)) ≤ length buffer.old }
    ensures { TextLaid (written_marked_lines (keys_of keys.now) (marked_by marks values.now)) buffer.old at buffer.new result }
{
    if marks == 0 {
        return write_lines(buffer, at, keys, values).unwrap_or(at);
    }
    write_marked_lines(buffer, at, keys, values, marks).unwrap_or(at)
}
