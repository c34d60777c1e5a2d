// A snapshot priced on a lent curve set into six lent numbers.
ghost use Rattle.ordc.specs.Price.{PriceCalled};

use crate::reply::{ACCEPTED, Reply, refused};
use curve_set::values::curves_of;
use pricing::price;
use pricing_adder::price::price_values;

// A snapshot's text priced on a lent curve set; a refusal leaves the lent answer as it was.
pub fn ordc_price(curves: &[i64; 50], text: &[u8], answer: &mut [i64; 6]) -> Reply
    ensures { PriceCalled curves.now text.now answer.old answer.new result }
{
    match price(curves_of(*curves), text) {
        Ok(prices) => {
            *answer = price_values(prices);
            ACCEPTED
        }
        Err(found) => refused(found),
    }
}
