// Parts of a byte string: from one position to another, up to a mark, and pieces, each ended by one mark, as the keys of a schema by `=`.
ghost use Rattle.std.specs.Prelude.{◌≡◌, ◌+◌, ◌==◌, drop, position};
ghost use Rattle.text_line.specs.Piece.{part, piece_length};

// A part of a text, from one position to another; no bytes where there is no such part.
// Bytes and no Option, and no `get`: an end past the text cuts nothing off. docs/STATEMENTS.md names `part`, and its definition has it so.
pub fn part(text: &[u8], start: usize, end: usize) -> &[u8]
    ensures { result.now ≡ part text.now start end }
{
    if text.len() <= start {
        return &text[..0];
    }
    if end <= start {
        return &text[..0];
    }
    if text.len() <= end {
        return &text[start..];
    }
    &text[start..end]
}

// Where a mark stands first among some bytes.
pub fn mark_at(bytes: &[u8], mark: u8) -> Option<usize>
    ensures { result ≡ position (λ byte. byte == mark) bytes.now }
{
    bytes.iter().position(|&byte| byte == mark)
}

// Where the piece that starts at a position ends, past its mark; the position itself where no piece is left.
// The position and no Option: docs/STATEMENTS.md names it, and `piece_length` of specs/Piece.antt is 0 where there is no piece.
#[tactic(auto, using(crate::proofs::Marks::piece_marked, crate::proofs::Marks::piece_unmarked, crate::proofs::Marks::piece_past, crate::proofs::Parts::part_whole))]
pub fn piece_end(bytes: &[u8], from: usize, mark: u8) -> usize
    ensures { result ≡ from + piece_length mark (drop from bytes.now) }
{
    if bytes.len() <= from {
        return from;
    }
    match mark_at(&bytes[from..], mark) {
        Some(length) => from + length + 1,
        None => from,
    }
}
