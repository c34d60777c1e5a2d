// Which units are counted on line.
ghost use Rattle.std.specs.Prelude.{◌≡◌};
ghost use Rattle.pricing_resource.specs.Online.{is_gen_or_wind, is_running, counted_online};

use crate::{Generator, Kind, Status};

// Beside `is_gen_or_nuke`, as said there.
pub(crate) fn is_gen_or_wind(kind: Kind) -> bool
    ensures { result ≡ is_gen_or_wind kind }
{
    matches!(kind, Kind::Gen | Kind::Wind)
}

// ON, or STARTUP with Non-Spin above 0.
fn is_running(status: Status, nonspin: i32) -> bool
    ensures { result ≡ is_running status nonspin }
{
    match status {
        Status::On => true,
        Status::Startup => 0 < nonspin,
        Status::Off | Status::OffNs | Status::OnTest | Status::Shutdown | Status::Out => false,
    }
}

// Whether a unit is counted on line.
#[tactic(auto, unfolding(crate::specs::Online::counted_online))]
pub fn counted_online(g: Generator) -> bool
    ensures { result ≡ counted_online g }
{
    if !is_gen_or_wind(g.kind) || !is_running(g.status, g.nonspin) {
        return false;
    }
    95 * (g.lsl as i64) <= 100 * (g.net as i64)
}
