// What a program prints for a refusal.
ghost use Rattle.std.specs.Prelude.{◌≤◌, ◌+◌, false, length};
ghost use Rattle.text_writer.specs.internal.Signed.{signed_line};
ghost use Rattle.text_writer.specs.Output.{refusal_lines};
ghost use Rattle.text_writer.specs.Write.{TextLaid, TextWritten};

use crate::line::put_text_line;
use crate::{digit_count, put_bytes, put_value};
use text_refusal::refusal::Refusal;

// A line: its key, a natural number, byte 10; where the next line starts.
fn put_line(buffer: &mut [u8], at: usize, key: &[u8], n: u64) -> usize
    requires { at + length (signed_line key.now false n) ≤ length buffer.old }
    ensures { TextLaid (signed_line key.now false n) buffer.old at buffer.new result }
{
    let start = put_bytes(buffer, at, key);
    put_value(buffer, start, false, n)
}

// The lines of a refusal at the start of a buffer that has room for them; where the next line starts.
fn put_refusal(buffer: &mut [u8], found: Refusal, name: &[u8]) -> usize
    requires { length (refusal_lines found name.now) ≤ length buffer.old }
    ensures { TextLaid (refusal_lines found name.now) buffer.old 0 buffer.new result }
{
    let second = put_line(buffer, 0, b"refused=", found.number);
    let third = put_line(buffer, second, b"line=", found.line as u64);
    put_text_line(buffer, third, b"text=", name)
}

// The lines of a refusal at the start of a lent buffer, with the name of the refused text.
// By hand and no `Display`: `TextWritten` says each byte that the lent buffer then has.
pub fn write_refusal(buffer: &mut [u8], found: Refusal, name: &[u8]) -> Option<usize>
    ensures { TextWritten (refusal_lines found name.now) buffer.old 0 buffer.new result }
{
    let length = 21 + digit_count(found.number) + digit_count(found.line as u64) + name.len();
    if buffer.len() < length {
        return None;
    }
    Some(put_refusal(buffer, found, name))
}
