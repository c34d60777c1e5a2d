// Which units' HSL is counted off line.
ghost use Rattle.std.specs.Prelude.{◌≡◌};
ghost use Rattle.pricing_resource.specs.Offline.{is_gen_or_nuke, counted_offline};

use crate::{Kind, Status};

// Beside `is_gen_or_wind`: two names of the definitions; one function would take the list of kinds, which `matches!` cannot.
fn is_gen_or_nuke(kind: Kind) -> bool
    ensures { result ≡ is_gen_or_nuke kind }
{
    matches!(kind, Kind::Gen | Kind::Nuke)
}

// Whether the HSL of a unit is counted off line; cold30 is a number as in `Generator`.
#[tactic(auto, using(crate::proofs::Flags::flag_set, crate::proofs::Flags::flag_not_set), unfolding(crate::specs::Offline::counted_offline))]
pub fn counted_offline(kind: Kind, status: Status, cold30: i32) -> bool
    ensures { result ≡ counted_offline kind status cold30 }
{
    match status {
        Status::Off => cold30 == 1 && is_gen_or_nuke(kind),
        Status::OffNs => true,
        Status::On | Status::OnTest | Status::Startup | Status::Shutdown | Status::Out => false,
    }
}
