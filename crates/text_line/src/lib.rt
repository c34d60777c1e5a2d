// Document 01, "Texts": a text is lines `key=value`, each ended by byte 10. Here the end of a text.
#![tactic(auto)]

ghost use Rattle.std.specs.Prelude.{◌≡◌};
ghost use Rattle.text_line.specs.Lines.{end_at};

use text_refusal::refusal::Fault;

pub mod line;
pub mod piece;

// The end of a text, which has no more lines: the position handed in, and bytes after the last due line are refused by 9.
pub fn end_at(text: &[u8], at: usize) -> Result<usize, Fault>
    ensures { result ≡ end_at text.now at }
{
    if at < text.len() {
        return Err(Fault { number: 9, at });
    }
    Ok(at)
}
