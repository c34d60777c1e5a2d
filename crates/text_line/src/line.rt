// One line: whether it begins with the due key, its value as a part of the caller's text, and why it is refused.
ghost use Rattle.std.specs.Prelude.{◌≡◌, ◌≤◌, ◌+◌, length, take, drop};
ghost use Rattle.text_line.specs.Line.{line_length, begins, value_at, line_fault, value_fault};

use crate::piece::mark_at;
use text_refusal::refusal::Fault;

// Where the line that starts at a position ends: at its byte 10, or at the text's end.
#[tactic(auto, using(crate::proofs::Marks::line_marked, crate::proofs::Marks::line_unmarked, crate::proofs::Parts::part_whole))]
fn line_end(text: &[u8], at: usize) -> usize
    requires { at ≤ length text.now }
    ensures { result ≡ at + line_length (drop at text.now) }
{
    match mark_at(&text[at..], b'\n') {
        Some(length) => at + length,
        None => text.len(),
    }
}

// Whether a text begins with a key, all of it in the text's first line.
#[tactic(auto, using(crate::proofs::DueLines::begins_starts))]
pub fn begins_with(text: &[u8], key: &[u8]) -> bool
    ensures { result ≡ begins key.now (take (line_length text.now) text.now) }
{
    text.starts_with(key) && !key.contains(&b'\n')
}

// The value of the line that is due at a position, as a part of the text; no bytes where the line is refused, since an empty value is refused too.
// The bytes and no Option: docs/STATEMENTS.md states it, and the laws `field_got`, `field_within` and `field_refused` stand on `value_at`.
// Text, position and key stay apart in the three functions from here on: docs/STATEMENTS.md names these, and their definitions take the three so.
pub fn line_value<'a>(text: &'a [u8], at: usize, key: &[u8]) -> &'a [u8]
    ensures { result.now ≡ value_at key.now text.now at }
{
    if text.len() <= at {
        return &text[..0];
    }
    if begins_with(&text[at..], key) {
        let start = at + key.len();
        let end = line_end(text, start);
        if end < text.len() {
            return &text[start..end];
        }
        return &text[..0];
    }
    &text[..0]
}

// Why the line that is due at a position is refused: it lacks its byte 10 (3), does not begin with the key and its `=` (4), or has an empty value (5);
// 0 where it has a value. The 0 and no Option: docs/STATEMENTS.md states it, and the laws `fault-value` and `fault_own` stand on it.
pub fn line_fault(text: &[u8], at: usize, key: &[u8]) -> u64
    ensures { result ≡ line_fault key.now text.now at }
{
    if text.len() <= at {
        return 3;
    }
    if begins_with(&text[at..], key) {
        let start = at + key.len();
        let end = line_end(text, start);
        if text.len() <= end {
            return 3;
        }
        if start == end {
            return 5;
        }
        return 0;
    }
    if text.len() <= line_end(text, at) {
        return 3;
    }
    4
}

// The fault of a line whose value was refused by a number: the line's own where it is refused itself.
pub fn value_fault(text: &[u8], at: usize, key: &[u8], number: u64) -> Fault
    ensures { result ≡ value_fault key.now text.now at number }
{
    let own = line_fault(text, at, key);
    if own == 0 {
        return Fault { number, at };
    }
    Fault { number: own, at }
}
