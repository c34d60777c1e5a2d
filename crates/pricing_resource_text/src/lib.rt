// The text of one resource: its kind and its fields.
#![tactic(auto)]

mod kinds;
pub mod made;
mod marks;
mod words;

ghost use Rattle.std.specs.Prelude.{◌≡◌};
ghost use Rattle.pricing_resource_text.specs.Resource.{of_kind, resource_at, lines_answer};

use crate::kinds::{controllable_at, generator_at, load_at};
use crate::words::kind_word;
use pricing_resource::{Kind, Resource};
use text_line::line::{line_value, value_fault};
use text_refusal::refusal::Fault;

// A resource read, and where the next one starts. A struct of its own: `lines_answer` of the contracts names `resource`, which says what was read; a generic
// one would say `value`.
#[derive(Clone, Copy)]
pub struct ResourceLines {
    pub resource: Resource,
    pub next: usize,
}

// The lines of a resource after its kind, which stays the place in the list of words: `of_kind` of specs/Resource.antt goes by it. Each arm is one call, so
// closures would be no plainer.
fn of_kind(text: &[u8], index: usize, at: usize) -> Result<ResourceLines, Fault>
    ensures { lines_answer result ≡ of_kind text.now index at }
{
    match index {
        0 => generator_at(text, at, Kind::Gen),
        1 => generator_at(text, at, Kind::Wind),
        2 => generator_at(text, at, Kind::Irr),
        3 => generator_at(text, at, Kind::Nuke),
        4 => controllable_at(text, at),
        _ => load_at(text, at),
    }
}

// The lines of one resource after its id: its kind, then those of the kind.
pub fn resource_at(text: &[u8], at: usize) -> Result<ResourceLines, Fault>
    ensures { lines_answer result ≡ resource_at text.now at }
{
    let value = line_value(text, at, b"kind=");
    let Some(index) = kind_word(value) else {
        return Err(value_fault(text, at, b"kind=", 6));
    };
    of_kind(text, index, at + 5 + value.len() + 1)
}
