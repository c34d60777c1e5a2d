// Refusals: where a text is refused, and why.
ghost use Rattle.std.specs.Prelude.{◌≡◌};
ghost use Rattle.text_refusal.specs.Refusal.{ended_lines, refusal_of};

// A refusal within a text: its number in the checking order, and where the refused line starts. The number is document 01's own, and no enum: definitions, the
// C interface and printed texts give it as it is.
#[derive(Clone, Copy)]
pub struct Fault {
    pub number: u64,
    pub at: usize,
}

// A refusal as a caller sees it: its number, and the line, the first line being 1. The number stays one as a fault's does.
// The line is 0 where no line is refused, and no Option: the definitions have it, and hosts read it in `Reply`, a struct of the C interface.
#[derive(Clone, Copy)]
pub struct Refusal {
    pub number: u64,
    pub line: usize,
}

// How many lines end before a position. A loop: the bytes filtered and counted take twice as long.
fn ended_lines(text: &[u8], at: usize) -> usize
    ensures { result ≡ ended_lines at text.now }
{
    let mut count: usize = 0;
    for &byte in &text[..at.min(text.len())] {
        if byte == b'\n' {
            count += 1;
        }
    }
    count
}

// The refusal of a fault, its line counted in the text.
#[tactic(auto, using(crate::proofs::Refusals::ended_at_most))]
pub fn refusal_of(text: &[u8], fault: Fault) -> Refusal
    ensures { result ≡ refusal_of text.now fault }
{
    Refusal {
        number: fault.number,
        line: ended_lines(text, fault.at) + 1,
    }
}
