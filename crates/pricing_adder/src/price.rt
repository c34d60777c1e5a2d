// The two reserve prices.
ghost use Rattle.std.specs.Prelude.{◌≤◌, ◌≡◌, nat_abs};
ghost use Rattle.pricing_adder.specs.Reserve.{online_reserve, total_reserve};
ghost use Rattle.pricing_adder.specs.Price.{pair_for, shortage_online, shortage_offline, value_of_reserve, rounded, prices_of, price_values, sums_priced};

use crate::reserve::Tested;
use curve_group::group_of;
use curve_probability::{offline_probability, online_probability};
use curve_set::{CurveSet, Pair, curves_in_range};
use integer::magnitude;
use pricing_sums::header::{Header, header_fault};
use pricing_sums::{Sums, sums_possible};
use text_refusal::refusal::Refusal;

// Both reserves in kW, both probabilities in billionths, both prices in cents per MWh.
#[derive(Clone, Copy)]
pub struct Prices {
    pub rs: i64,
    pub rsns: i64,
    pub pis: u32,
    pub pins: u32,
    // RTORPA and RTOFFPA.
    pub online: u32,
    pub offline: u32,
}

// The six numbers of a pricing, in the order in which they are printed. A function and no `From`, since docs/STATEMENTS.md names it.
pub fn price_values(p: Prices) -> [i64; 6]
    ensures { result ≡ price_values p }
{
    [
        p.rs,
        p.rsns,
        p.pis as i64,
        p.pins as i64,
        p.online as i64,
        p.offline as i64,
    ]
}

// A value times a share of two, rounded half up.
#[tactic(auto, unfolding(crate::specs::Price::rounded))]
fn rounded_share(value: u64, share: u64) -> u64
    requires value_bound { value ≤ 4000000 }
    requires share_bound { share ≤ 2000000000 }
    ensures { result ≡ rounded value share }
{
    (value * share + 1000000000) / 2000000000
}

// Both probabilities, in billionths.
#[derive(Drop)]
struct Shortages {
    online: u64,
    offline: u64,
}

impl Tested {
    // The mean and the spread of the header's group.
    fn pair(&self) -> Pair
        ensures value { result ≡ pair_for self.now.curves self.now.header }
        ensures mean_bound { nat_abs result.mean ≤ 20000000 }
        ensures spread_bound { nat_abs result.spread ≤ 20000000 }
    {
        let group = group_of(magnitude(self.header.month), magnitude(self.header.hour));
        self.curves.pairs[group as usize]
    }

    // v = max(0, VOLL - lambda).
    fn value(&self) -> u64
        ensures value { result ≡ value_of_reserve self.now.curves self.now.header }
        ensures bound { result ≤ 4000000 }
    {
        magnitude((self.curves.voll - self.header.lambda).max(0))
    }

    // piS of RS and piNS of RSNS.
    fn shortages(&self, rs: i64, rsns: i64) -> Shortages
        requires online { rs ≡ online_reserve self.now.header self.now.sums }
        requires total { rsns ≡ total_reserve self.now.header self.now.sums }
        ensures online { result.online ≡ shortage_online self.now.curves self.now.header self.now.sums }
        ensures offline { result.offline ≡ shortage_offline self.now.curves self.now.header self.now.sums }
    {
        let pair = self.pair();
        let floor = self.curves.floor as i32;
        let mean = pair.mean as i32;
        let spread = magnitude(pair.spread) as u32;
        Shortages {
            online: online_probability(rs, floor, mean, spread),
            offline: offline_probability(rsns, floor, mean, spread),
        }
    }

    // Both prices, each rounded once.
    fn prices(&self) -> Prices
        ensures { result ≡ prices_of self.now.curves self.now.header self.now.sums }
    {
        let rs = self.online_reserve();
        let rsns = self.total_reserve();
        let s = self.shortages(rs, rsns);
        let value = self.value();
        Prices {
            rs,
            rsns,
            pis: s.online as u32,
            pins: s.offline as u32,
            online: rounded_share(value, s.online + s.offline) as u32,
            offline: rounded_share(value, s.offline) as u32,
        }
    }
}

// The prices of sums and header numbers, which may be any: curves and sums are refused as impossible by 1, a header number out of its range by 7 at its line.
#[tactic(auto, unfolding(crate::specs::Price::sums_priced))]
pub fn price_sums(curves: CurveSet, header: Header, sums: Sums) -> Result<Prices, Refusal>
    ensures { result ≡ sums_priced curves header sums }
{
    if !(curves_in_range(curves) && sums_possible(sums)) {
        return Err(Refusal { number: 1, line: 0 });
    }
    let line = header_fault(header);
    if line != 0 {
        return Err(Refusal { number: 7, line });
    }
    let tested = Tested {
        curves,
        header,
        sums,
    };
    Ok(tested.prices())
}
