// What the resources of a snapshot add up to before cap and factor, and the header's numbers.
#![tactic(auto)]

pub mod header;
pub mod part;

ghost use Rattle.std.specs.Prelude.{◌≡◌};
ghost use Rattle.pricing_sums.specs.Sums.{sums_possible};

use integer::range::is_within;

// What the resources add up to, in kW: each sum is the sum of the resources' parts, so the load cap, which holds for the total, is not yet applied.
#[derive(Clone, Copy)]
pub struct Sums {
    // G: HSL less base point less Non-Spin of the units counted on line.
    pub generation: i64,
    // C: base point less LPC less Non-Spin plus Reg-Up of controllable loads.
    pub controllable: i64,
    // D: HSL of off-line units and Non-Spin, which RSNS adds.
    pub offline: i64,
    // Net less LPC of the validated other loads.
    pub validated: i64,
    // RRS of all other loads.
    pub responsive: i64,
}

// What no resources add up to.
pub const NO_SUMS: Sums = Sums {
    generation: 0,
    controllable: 0,
    offline: 0,
    validated: 0,
    responsive: 0,
};

// Whether 4096 resources can add up to these sums.
#[tactic(auto, using(std::proofs::lemmas::Int::ints), unfolding(crate::specs::Sums::sums_possible))]
pub fn sums_possible(sums: Sums) -> bool
    ensures { result ≡ sums_possible sums }
{
    let generation = is_within(sums.generation, -16384000000, 8192000000);
    let controllable = is_within(sums.controllable, -16384000000, 16384000000);
    let offline = is_within(sums.offline, 0, 8192000000);
    let validated = is_within(sums.validated, -8192000000, 8192000000);
    let responsive = is_within(sums.responsive, 0, 8192000000);
    // Grouped as the definition groups them, so that the check finds the proof.
    generation && (controllable && (offline && (validated && responsive)))
}
