// Words: a value that is one of a list.
#![tactic(auto)]

ghost use Rattle.std.specs.Prelude.{◌≡◌};
ghost use Rattle.text_word.specs.Word.{same_bytes};

// Whether a value is a word: the same bytes.
// A name of its own for `==`: docs/STATEMENTS.md names it, and contracts speak of `same_bytes`.
#[tactic(auto, using(crate::proofs::Words::same_pointwise))]
pub fn is_word(value: &[u8], word: &[u8]) -> bool
    ensures { result ≡ same_bytes value.now word.now }
{
    value == word
}
