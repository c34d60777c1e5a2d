// The header of a snapshot's text.
ghost use Rattle.std.specs.Prelude.{◌≡◌};
ghost use Rattle.pricing_resource_text.specs.Resource.{lines_as};
ghost use Rattle.pricing_snapshot.specs.Snapshot.{header_fields, header_of};
ghost use Rattle.pricing_snapshot.specs.internal.Heading.{header_answer};

use pricing_sums::header::{HEADER_HIGHS, HEADER_LOWS, Header};
use text_refusal::refusal::Fault;
use text_schema::read_lines;

// A header read, and where its lines end. A struct of its own: `header_answer` of the contracts names `header`, which says what was read; a generic one would
// say `value`.
#[derive(Clone, Copy)]
pub(crate) struct HeaderLines {
    pub header: Header,
    pub next: usize,
}

// The header by its values. A function and no `From`, since contracts name the definition `header_of`; `header_held` of pricing_held has another last number.
fn header_of(v: [i64; 8]) -> Header
    ensures { result ≡ header_of v }
{
    let [month, hour, lambda, factor, prc, eea1, short, count] = v;
    Header {
        month,
        hour,
        lambda,
        factor,
        prc,
        eea1,
        short,
        count,
    }
}

// The header at the start of a text, or the refused line.
pub(crate) fn header_at(text: &[u8]) -> Result<HeaderLines, Fault>
    ensures { header_answer result ≡ lines_as header_of header_fields text.now 0 }
{
    let mut v = [0i64; 8];
    let keys = b"month=hour=lambda=factor=prc=eea1=short=count=";
    let next = read_lines(text, 0, keys, &HEADER_LOWS, &HEADER_HIGHS, &mut v)?;
    Ok(HeaderLines {
        header: header_of(v),
        next,
    })
}
