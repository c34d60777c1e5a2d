// The words of a kind and of a status, by their places in the lists.
ghost use Rattle.std.specs.Prelude.{◌≡◌, position};
ghost use Rattle.text_word.specs.Word.{same_bytes, word_in};
ghost use Rattle.pricing_resource_text.specs.Resource.{kind_words, status_words};

use text_word::is_word;

// Both lists stand once more in pricing_held_text, for writing, as said there.
const KIND_WORDS: [&[u8]; 6] = [b"gen", b"wind", b"irr", b"nuke", b"clr", b"nclr"];

const STATUS_WORDS: [&[u8]; 7] = [
    b"ON",
    b"OFF",
    b"OFFNS",
    b"ONTEST",
    b"STARTUP",
    b"SHUTDOWN",
    b"OUT",
];

// Which word of a list a value is.
fn word_of(value: &[u8], words: &[&[u8]]) -> Option<usize>
    ensures { result ≡ position (λ word. same_bytes value.now word.now) words.now }
{
    words.iter().position(|word| is_word(value, word))
}

// Which kind a value is. A place in the list, and no enum: `of_kind` and `status_of` of the definitions go by it, and hosts name kinds and statuses by it.
pub(crate) fn kind_word(value: &[u8]) -> Option<usize>
    ensures { result ≡ word_in kind_words value.now }
{
    word_of(value, &KIND_WORDS)
}

// Which status a value is, by its place as well.
pub(crate) fn status_word(value: &[u8]) -> Option<usize>
    ensures { result ≡ word_in status_words value.now }
{
    word_of(value, &STATUS_WORDS)
}
