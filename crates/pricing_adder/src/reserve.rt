// The load cap, the discount factor, RS and RSNS, in kW.
ghost use Rattle.std.specs.Prelude.{◌≤◌, ◌≡◌, true, nat_abs};
ghost use Rattle.curve_set.specs.Curves.{curves_in_range};
ghost use Rattle.pricing_sums.specs.Header.{header_fault};
ghost use Rattle.pricing_sums.specs.Sums.{sums_possible};
ghost use Rattle.pricing_adder.specs.Reserve.{twice_loads, twice_online, discounted, online_reserve, total_reserve};

use curve_set::CurveSet;
use integer::floor_div;
use pricing_sums::Sums;
use pricing_sums::header::Header;

// What passed the tests of a pricing, so that every step fits its machine number.
#[derive(Drop)]
pub(crate) struct Tested {
    pub(crate) curves: CurveSet,
    pub(crate) header: Header,
    pub(crate) sums: Sums,
    ghost curves_tested: { curves_in_range curves ≡ true },
    ghost header_tested: { header_fault header ≡ 0 },
    ghost sums_tested: { sums_possible sums ≡ true },
}

impl Tested {
    // Twice L: the validated net less LPC, kept at zero or above in total, and at most 1.5 times the RRS of all other loads.
    fn twice_loads(&self) -> i64
        ensures value { result ≡ twice_loads self.now.sums }
        ensures bound { nat_abs result ≤ 40960000000 }
    {
        (2 * self.sums.validated.max(0)).min(3 * self.sums.responsive)
    }

    // Twice G + C + L: the half kW of the cap of L is lost only in the floor of the reserve.
    fn twice_online(&self) -> i64
        ensures value { result ≡ twice_online self.now.sums }
        ensures bound { nat_abs result ≤ 110000000000 }
    {
        2 * (self.sums.generation + self.sums.controllable) + self.twice_loads()
    }

    // Factor, under-generation and floor, from twice the reserve.
    fn discounted(&self, twice: i64) -> i64
        requires { nat_abs twice ≤ 200000000000 }
        ensures { result ≡ discounted self.now.header twice }
    {
        floor_div(
            self.header.factor * twice - 20000 * self.header.short,
            20000,
        )
    }

    // RS.
    pub(crate) fn online_reserve(&self) -> i64
        ensures { result ≡ online_reserve self.now.header self.now.sums }
    {
        self.discounted(self.twice_online())
    }

    // RSNS: D is added where PRC is above the PRC at which EEA Level 1 starts.
    pub(crate) fn total_reserve(&self) -> i64
        ensures { result ≡ total_reserve self.now.header self.now.sums }
    {
        if self.header.prc <= self.header.eea1 {
            return self.online_reserve();
        }
        self.discounted(self.twice_online() + 2 * self.sums.offline)
    }
}
