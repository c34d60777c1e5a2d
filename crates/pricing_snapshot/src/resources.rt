// The resources of a snapshot, one after the other: each id is new, each resource's part is added to the sums, and the first line is kept that a mark turns back.
ghost use Rattle.std.specs.Prelude.{◌≡◌, [], ◌≤◌};
ghost use Rattle.text_id_table.specs.internal.Kept.{IdTable, Room};
ghost use Rattle.pricing_sums.specs.Sums.{plus};
ghost use Rattle.pricing_sums.specs.internal.Range.{SumsWithin};
ghost use Rattle.pricing_sums.specs.Part.{part_of};
ghost use Rattle.pricing_resource_text.specs.Resource.{resource_at};
ghost use Rattle.pricing_snapshot.specs.Snapshot.{resources_at};
ghost use Rattle.pricing_snapshot.specs.internal.Tallied.{no_tally, suspect_with, tally_with, tallied, resources_answer};

use crate::ids::new_id;
use pricing_resource::Resource;
use pricing_resource::suspect::{resource_line_count, suspect_place};
use pricing_resource_text::resource_at;
use pricing_sums::part::part_of;
use pricing_sums::{NO_SUMS, Sums};
use text_refusal::refusal::Fault;

// The sums of the resources, how many lines the text has up to there, and the first line that a mark turns back, where there is one.
#[derive(Clone, Copy)]
pub struct Tally {
    pub sums: Sums,
    pub lines: usize,
    pub suspect: Option<usize>,
}

// What the resources come to, and where their lines end. A struct of its own: `resources_answer` of the contracts names `tally`, which says what was read; a
// generic one would say `value`.
#[derive(Clone, Copy)]
pub struct Resources {
    pub tally: Tally,
    pub next: usize,
}

// The sums with one resource's part added. No `impl Add`: it would take any sums, and these fit only by what the clauses ask.
fn plus(sums: Sums, part: Sums) -> Sums
    requires fact_1 { SumsWithin 4095 sums }
    requires fact_2 { SumsWithin 1 part }
    ensures { result ≡ plus sums part }
{
    Sums {
        generation: sums.generation + part.generation,
        controllable: sums.controllable + part.controllable,
        offline: sums.offline + part.offline,
        validated: sums.validated + part.validated,
        responsive: sums.responsive + part.responsive,
    }
}

// The first line that a mark turns back, with one resource more after so many lines: a line that was found stays the first.
#[tactic(auto, using(pricing_resource::proofs::Suspects::place_few))]
fn suspect_with(suspect: Option<usize>, lines: usize, resource: Resource) -> Option<usize>
    requires { lines ≤ 36863 }
    ensures { result ≡ suspect_with suspect lines resource }
{
    if suspect.is_some() {
        return suspect;
    }
    match suspect_place(resource) {
        0 => None,
        place => Some(lines + place),
    }
}

// The tally with one resource more.
#[tactic(auto, unfolding(crate::specs::internal::Tallied::tally_with))]
fn tally_with(tally: Tally, resource: Resource) -> Tally
    requires fact_1 { SumsWithin 4095 tally.sums }
    requires fact_2 { SumsWithin 1 (part_of resource) }
    requires fact_3 { tally.lines ≤ 36863 }
    ensures { result ≡ tally_with tally resource }
{
    Tally {
        sums: plus(tally.sums, part_of(resource)),
        lines: tally.lines + resource_line_count(resource),
        suspect: suspect_with(tally.suspect, tally.lines, resource),
    }
}

// The resources from a position on, their ids kept in a table that is empty; 8 lines stand before the first of them.
pub(crate) fn resources_at(
    text: &[u8],
    at: usize,
    count: usize,
    starts: &mut [usize],
) -> Result<Resources, Fault>
    requires fact_1 { IdTable 10 text.now starts.old [] }
    requires fact_2 { Room count starts.old }
    ensures { resources_answer result ≡ tallied no_tally (resources_at resource_at count [] text.now at) }
{
    let mut tally = Tally {
        sums: NO_SUMS,
        lines: 8,
        suspect: None,
    };
    let mut next = at;
    for _taken in 0..count {
        let after = new_id(text, next, starts)?;
        let read = resource_at(text, after)?;
        tally = tally_with(tally, read.resource);
        next = read.next;
    }
    Ok(Resources { tally, next })
}
