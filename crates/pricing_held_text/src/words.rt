// The words of a kind and of a status as they are written.
ghost use Rattle.std.specs.Prelude.{◌≡◌, ◌≤◌, length, map};
ghost use Rattle.text_word.specs.Word.{written_word};
ghost use Rattle.pricing_resource_text.specs.Resource.{kind_words, status_words};

// Again here: pricing_resource_text keeps its lists to itself, and the words handed out have to outlive the call, as those of a `static` do.
static KINDS: [&[u8]; 6] = [b"gen", b"wind", b"irr", b"nuke", b"clr", b"nclr"];

static STATUSES: [&[u8]; 7] = [
    b"ON",
    b"OFF",
    b"OFFNS",
    b"ONTEST",
    b"STARTUP",
    b"SHUTDOWN",
    b"OUT",
];

// The word at a place of a list; past the last there is none: no bytes and no Option, as `written_word` of text_word.
#[tactic(auto, using(crate::proofs::Listed::word_here, crate::proofs::Listed::word_none))]
fn word_at(words: &[&'static [u8]], place: usize) -> &'static [u8]
    ensures { result.now ≡ written_word (map (λ w. w.now) words.now) place }
{
    match words.get(place) {
        Some(word) => word,
        None => b"",
    }
}

// The word of a kind, which hosts name by its place.
#[tactic(auto, using(crate::proofs::Listed::kind_short))]
pub(crate) fn kind_word(kind: usize) -> &'static [u8]
    ensures word { result.now ≡ written_word kind_words kind }
    ensures short { length result.now ≤ 4 }
{
    word_at(&KINDS, kind)
}

// The word of a status.
pub(crate) fn status_word(status: usize) -> &'static [u8]
    ensures word { result.now ≡ written_word status_words status }
    ensures short { length result.now ≤ 8 }
{
    word_at(&STATUSES, status)
}
