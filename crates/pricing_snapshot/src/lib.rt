// A snapshot's text: its header, and the sums of its resources.
#![tactic(auto)]

mod header;
mod ids;
mod resources;

ghost use Rattle.std.specs.Prelude.{◌≡◌, [], ◌≤◌, nat_abs};
ghost use Rattle.pricing_resource_text.specs.Resource.{resource_at};
ghost use Rattle.pricing_snapshot.specs.Snapshot.{resources_at, after_header, after_lines, snapshot_in, snapshot_sums};
ghost use Rattle.pricing_snapshot.specs.internal.Tallied.{no_tally, tallied, resources_answer};

use crate::header::header_at;
use crate::resources::{Resources, resources_at};
use integer::magnitude;
use pricing_sums::Sums;
use pricing_sums::header::Header;
use text_line::end_at;
use text_refusal::refusal::{Fault, Refusal, refusal_of};

// The header and the sums of a snapshot.
#[derive(Clone, Copy)]
pub struct Snapshot {
    pub header: Header,
    pub sums: Sums,
}

// The resources; where they are few, the table of their ids is small. Two arrays and no const parameter: the count is known only as the program runs, and there
// is no heap.
fn resources_in(text: &[u8], at: usize, count: usize) -> Result<Resources, Fault>
    requires { count ≤ 4096 }
    ensures { resources_answer result ≡ tallied no_tally (resources_at resource_at count [] text.now at) }
{
    if count <= 64 {
        let mut starts = [0usize; 192];
        return resources_at(text, at, count, &mut starts);
    }
    let mut starts = [0usize; 12288];
    resources_at(text, at, count, &mut starts)
}

// What follows a header that ends at a position.
fn after_header(text: &[u8], header: Header, at: usize) -> Result<Snapshot, Refusal>
    requires { nat_abs header.count ≤ 4096 }
    ensures { result ≡ snapshot_sums (after_lines text.now (after_header text.now header at)) }
{
    let count = magnitude(header.count) as usize;
    let read = resources_in(text, at, count).map_err(|fault| refusal_of(text, fault))?;
    end_at(text, read.next).map_err(|fault| refusal_of(text, fault))?;
    if let Some(line) = read.tally.suspect {
        return Err(Refusal { number: 15, line });
    }
    Ok(Snapshot {
        header,
        sums: read.tally.sums,
    })
}

// A snapshot's text read.
#[tactic(auto, using(crate::proofs::Snapshots::snapshot_long))]
pub fn read_snapshot(text: &[u8]) -> Result<Snapshot, Refusal>
    ensures { result ≡ snapshot_sums (snapshot_in text.now) }
{
    if 1048576 < text.len() {
        return Err(Refusal { number: 2, line: 0 });
    }
    let read = header_at(text).map_err(|fault| refusal_of(text, fault))?;
    after_header(text, read.header, read.next)
}
