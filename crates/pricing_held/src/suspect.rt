// The first line of a snapshot held as values that a mark turns back.
ghost use Rattle.std.specs.Prelude.{◌≡◌, ◌≤◌, map, length};
ghost use Rattle.pricing_resource.specs.Suspect.{suspect_place, suspect_line};
ghost use Rattle.pricing_held.specs.internal.Checks.{kind_of, flag_of, resource_in};

use crate::place_of;
use crate::rows::row_lines;
use integer::magnitude;
use pricing_resource::suspect::suspect_place;
use pricing_resource::{Controllable, Generator, Kind, Load, Resource};
use pricing_resource_text::made::status_of;

// The kind of a generator by its place in the list of words. No `From`: every number past the third counts as the last kind here, as the contract says, which
// is meant for rows alone.
fn kind_of(place: usize) -> Kind
    ensures { result ≡ kind_of place }
{
    match place {
        0 => Kind::Gen,
        1 => Kind::Wind,
        2 => Kind::Irr,
        _ => Kind::Nuke,
    }
}

// A flag as a resource holds it: no verdict tells apart numbers that are no 1. No `From`: every number but 1 counts as 0, as the contract says.
fn flag_of(z: i64) -> i32
    ensures { result ≡ flag_of z }
{
    if z == 1 {
        return 1;
    }
    0
}

// Which line of a row, the id's being 1, holds its first marked number where that turns the snapshot back; 0 where it does not, as the definition of `suspect_place`
// says. The verdict hangs on kind, status and flag alone, so the other numbers are left out. The kind stays the number that hosts write: `resource_of_kind` of
// specs/Rows.antt goes by it.
#[tactic(auto, using(crate::proofs::Suspects::unmarked_place, crate::proofs::Suspects::generator_row, crate::proofs::Suspects::controllable_row, crate::proofs::Suspects::load_row))]
fn row_place(values: &[i64; 9]) -> usize
    ensures { result ≡ suspect_place (resource_in values.now) }
{
    let marks = magnitude(values[8]);
    if marks == 0 {
        return 0;
    }
    let kind = place_of(values[0]);
    if kind < 4 {
        return suspect_place(Resource::Generator(Generator {
            kind: kind_of(kind),
            status: status_of(place_of(values[1])),
            net: 0,
            lsl: 0,
            hsl: 0,
            base: 0,
            nonspin: 0,
            cold30: flag_of(values[7]),
            marks: marks % 64,
        }));
    }
    if kind == 4 {
        return suspect_place(Resource::Controllable(Controllable {
            base: 0,
            lpc: 0,
            nonspin: 0,
            regup: 0,
            marks: marks % 16,
        }));
    }
    suspect_place(Resource::Load(Load {
        rrsok: 0,
        net: 0,
        lpc: 0,
        rrs: 0,
        marks: marks % 16,
    }))
}

// The first line of the rows that a mark turns back, the first row's id standing at line 9; 0 where there is none, as the definition of `suspect_line` says.
pub(crate) fn suspect_line(rows: &[[i64; 9]]) -> usize
    requires { length rows.now ≤ 4096 }
    ensures { result ≡ suspect_line (map resource_in rows.now) }
{
    let mut before: usize = 8;
    for values in rows {
        let place = row_place(values);
        if place != 0 {
            return before + place;
        }
        before += row_lines(values);
    }
    0
}
