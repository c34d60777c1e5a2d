// The two prices of a snapshot on a curve set.
#![tactic(auto)]

ghost use Rattle.std.specs.Prelude.{◌≡◌};
ghost use Rattle.pricing.specs.Pricing.{priced};

use curve_set::{CurveSet, curves_in_range};
use pricing_adder::price::{Prices, price_sums};
use pricing_snapshot::read_snapshot;
use text_refusal::refusal::Refusal;

// The prices of a snapshot's text, or why it is refused: an impossible curve set comes first.
pub fn price(curves: CurveSet, text: &[u8]) -> Result<Prices, Refusal>
    ensures { result ≡ priced curves text.now }
{
    if !curves_in_range(curves) {
        return Err(Refusal { number: 1, line: 0 });
    }
    let read = read_snapshot(text)?;
    price_sums(curves, read.header, read.sums)
}
