// The lines of each kind of resource, after its kind.
ghost use Rattle.std.specs.Prelude.{◌≡◌};
ghost use Rattle.pricing_resource_text.specs.Resource.{generator_of, controllable_of, load_of, with_marks, generator_fields, controllable_fields, load_fields, generator_at, lines_as, lines_answer};

use crate::ResourceLines;
use crate::made::{controllable_of, generator_of, load_of, narrowed, status_of};
use crate::marks::number_lines;
use crate::words::status_word;
use pricing_resource::{Kind, Status};
use text_line::line::{line_value, value_fault};
use text_refusal::refusal::Fault;

// The least and the greatest number of each line, where they differ; apart, as `read_lines` takes them. pricing_held has the same bounds again, without those
// of a flag.
const GENERATOR_LOWS: [i64; 6] = [-2000000, 0, 0, 0, 0, 0];

const GENERATOR_HIGHS: [i64; 6] = [2000000, 2000000, 2000000, 2000000, 2000000, 1];

const LOAD_HIGHS: [i64; 4] = [1, 2000000, 2000000, 2000000];

// The lines of a generator after its status.
fn generator_lines(
    text: &[u8],
    at: usize,
    kind: Kind,
    status: Status,
) -> Result<ResourceLines, Fault>
    ensures { lines_answer result ≡ lines_as (with_marks (generator_of kind status)) generator_fields text.now at }
{
    let mut v = [0i64; 6];
    let keys = b"net=lsl=hsl=base=nonspin=cold30=";
    let read = number_lines(text, at, keys, &GENERATOR_LOWS, &GENERATOR_HIGHS, 5, &mut v)?;
    Ok(ResourceLines {
        resource: generator_of(kind, status, read.marks, narrowed(v)),
        next: read.next,
    })
}

// The lines of a generator after its kind.
pub(crate) fn generator_at(text: &[u8], at: usize, kind: Kind) -> Result<ResourceLines, Fault>
    ensures { lines_answer result ≡ generator_at kind text.now at }
{
    let value = line_value(text, at, b"status=");
    let Some(index) = status_word(value) else {
        return Err(value_fault(text, at, b"status=", 6));
    };
    generator_lines(text, at + 7 + value.len() + 1, kind, status_of(index))
}

// The lines of a controllable load after its kind; none of them is a flag: 4 is past the last of its places, and `fields_of` of specs/internal/Marks.antt
// compares each place with the flag's. Beside `load_at`: what they have in common is `number_lines`; the contracts name two definitions, and one function would
// take keys, bounds, flag and what is made as arguments.
pub(crate) fn controllable_at(text: &[u8], at: usize) -> Result<ResourceLines, Fault>
    ensures { lines_answer result ≡ lines_as (with_marks controllable_of) controllable_fields text.now at }
{
    let mut v = [0i64; 4];
    let read = number_lines(
        text,
        at,
        b"base=lpc=nonspin=regup=",
        &[0; 4],
        &[2000000; 4],
        4,
        &mut v,
    )?;
    Ok(ResourceLines {
        resource: controllable_of(read.marks, narrowed(v)),
        next: read.next,
    })
}

// The lines of another load after its kind.
pub(crate) fn load_at(text: &[u8], at: usize) -> Result<ResourceLines, Fault>
    ensures { lines_answer result ≡ lines_as (with_marks load_of) load_fields text.now at }
{
    let mut v = [0i64; 4];
    let read = number_lines(
        text,
        at,
        b"rrsok=net=lpc=rrs=",
        &[0; 4],
        &LOAD_HIGHS,
        0,
        &mut v,
    )?;
    Ok(ResourceLines {
        resource: load_of(read.marks, narrowed(v)),
        next: read.next,
    })
}
