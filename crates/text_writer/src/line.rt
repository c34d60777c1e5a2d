// A line of text: its key, the text as it is, byte 10.
ghost use Rattle.std.specs.Prelude.{[], ◌∷◌, ◌++◌, ◌≤◌, ◌+◌, length};
ghost use Rattle.text_writer.specs.Write.{TextLaid, TextWritten};

use crate::put_bytes;

// The line, which the buffer has room for; where the next line starts.
pub(crate) fn put_text_line(buffer: &mut [u8], at: usize, key: &[u8], text: &[u8]) -> usize
    requires { at + length (key.now ++ (text.now ++ (10 ∷ []))) ≤ length buffer.old }
    ensures { TextLaid (key.now ++ (text.now ++ (10 ∷ []))) buffer.old at buffer.new result }
{
    let start = put_bytes(buffer, at, key);
    let end = put_bytes(buffer, start, text);
    buffer[end] = b'\n';
    end + 1
}

// The line at a position of a lent buffer. Its length need not fit a number, so what is left of the room is compared.
pub fn write_text_line(buffer: &mut [u8], at: usize, key: &[u8], text: &[u8]) -> Option<usize>
    ensures { TextWritten (key.now ++ (text.now ++ (10 ∷ []))) buffer.old at buffer.new result }
{
    let room = buffer.len().checked_sub(at)?.checked_sub(key.len())?;
    if room <= text.len() {
        return None;
    }
    Some(put_text_line(buffer, at, key, text))
}
