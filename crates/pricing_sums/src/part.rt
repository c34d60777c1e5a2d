// What each resource adds to the sums before the factor.
ghost use Rattle.std.specs.Prelude.{◌≡◌, ◌≤◌, nat_abs, ◌-ℤ◌};
ghost use Rattle.pricing_sums.specs.Part.{part_of};

use crate::{NO_SUMS, Sums};
use pricing_resource::offline::counted_offline;
use pricing_resource::online::counted_online;
use pricing_resource::{Controllable, Generator, Load, Resource};

// A number less two others.
#[tactic(auto, using(std::proofs::lemmas::Int::ints))]
fn less_both(x: i32, y: i32, z: i32) -> i64
    ensures { (result ≡ x -ℤ y -ℤ z) × (nat_abs result ≤ 6442450944) }
{
    x as i64 - y as i64 - z as i64
}

#[tactic(auto, using(std::proofs::lemmas::Int::ints), unfolding(crate::specs::Part::part_of))]
fn generator_part(g: Generator) -> Sums
    ensures { result ≡ part_of (Resource.Generator g) }
{
    if counted_online(g) {
        return Sums {
            generation: less_both(g.hsl, g.base, g.nonspin),
            offline: g.nonspin as i64,
            ..NO_SUMS
        };
    }
    if counted_offline(g.kind, g.status, g.cold30) {
        return Sums {
            offline: g.hsl as i64,
            ..NO_SUMS
        };
    }
    NO_SUMS
}

#[tactic(auto, using(std::proofs::lemmas::Int::ints), unfolding(crate::specs::Part::part_of))]
fn controllable_part(c: Controllable) -> Sums
    ensures { result ≡ part_of (Resource.Controllable c) }
{
    Sums {
        controllable: less_both(c.base, c.lpc, c.nonspin) + c.regup as i64,
        offline: c.nonspin as i64,
        ..NO_SUMS
    }
}

#[tactic(auto, using(pricing_resource::proofs::Flags::flag_set, pricing_resource::proofs::Flags::flag_not_set), unfolding(crate::specs::Part::part_of))]
fn load_part(l: Load) -> Sums
    ensures { result ≡ part_of (Resource.Load l) }
{
    let sums = Sums {
        responsive: l.rrs as i64,
        ..NO_SUMS
    };
    if l.rrsok == 1 {
        return Sums {
            validated: less_both(l.net, l.lpc, 0),
            ..sums
        };
    }
    sums
}

// What a resource adds to the sums.
pub fn part_of(resource: Resource) -> Sums
    ensures { result ≡ part_of resource }
{
    match resource {
        Resource::Generator(g) => generator_part(g),
        Resource::Controllable(c) => controllable_part(c),
        Resource::Load(l) => load_part(l),
    }
}
