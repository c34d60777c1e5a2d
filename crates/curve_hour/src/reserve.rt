// The values of an hour, by name, and the reserves that they make.
ghost use Rattle.std.specs.Prelude.{◌≡◌, ◌≤◌, nat_abs, ◌+ℤ◌, ◌-ℤ◌};
ghost use Rattle.curve_hour.specs.Hour.{Hour, hour_of, hour_ahead, hour_group};
ghost use Rattle.curve_hour.specs.internal.Ranges.{HourInRange};

use curve_group::group_of;
use integer::magnitude;
use std::marker::Model;

// The values of an hour's own lines, each in its range.
#[derive(Drop)]
pub(crate) struct HourValues {
    month: i64,
    hour: i64,
    ongen: i64,
    load: i64,
    tie: i64,
    ns: i64,
    reg: i64,
    rrs: i64,
    nclr: i64,
    offns: i64,
    cold30: i64,
    shed: i64,
    runs: i64,
}

impl Model for HourValues {
    ghost Value = { Hour };

    ghost view = { λ h. record { month = h.month; hour = h.hour; ongen = h.ongen; load = h.load; tie = h.tie; ns = h.ns; reg = h.reg; rrs = h.rrs; nclr = h.nclr; offns = h.offns; cold30 = h.cold30; shed = h.shed; runs = h.runs } };

    ghost invariant = { λ h. HourInRange (record { month = h.month; hour = h.hour; ongen = h.ongen; load = h.load; tie = h.tie; ns = h.ns; reg = h.reg; rrs = h.rrs; nclr = h.nclr; offns = h.offns; cold30 = h.cold30; shed = h.shed; runs = h.runs }) };
}

impl HourValues {
    // The values in the order of their lines.
    // No `From`: it takes any array, and these numbers have to be in their ranges.
    pub(crate) fn of(values: &[i64; 13]) -> HourValues
        requires { HourInRange (hour_of values.now) }
        ensures { result ≡ hour_of values.now }
    {
        let [
            month,
            hour,
            ongen,
            load,
            tie,
            ns,
            reg,
            rrs,
            nclr,
            offns,
            cold30,
            shed,
            runs,
        ] = *values;
        HourValues {
            month,
            hour,
            ongen,
            load,
            tie,
            ns,
            reg,
            rrs,
            nclr,
            offns,
            cold30,
            shed,
            runs,
        }
    }

    // HA.
    fn ahead(&self) -> i64
        ensures reserve { result ≡ hour_ahead self.now }
        ensures small { nat_abs result ≤ 900000000 }
    {
        self.ongen - self.load - self.tie
            + self.ns
            + self.reg
            + self.rrs
            + self.nclr
            + self.offns
            + self.cold30
    }

    // The group of the hour's month and hour.
    pub(crate) fn group(&self) -> u64
        ensures { result ≡ hour_group self.now }
    {
        group_of(magnitude(self.month), magnitude(self.hour))
    }

    // How many runs the hour has.
    pub(crate) fn runs(&self) -> u64
        ensures counted { result ≡ nat_abs self.now.runs }
        ensures few { result ≤ 60 }
    {
        magnitude(self.runs)
    }

    // The reserve error, given the mean of SCED over the runs.
    pub(crate) fn error(&self, mean: i64) -> i64
        requires { nat_abs mean ≤ 900000000 }
        ensures { result ≡ hour_ahead self.now -ℤ mean +ℤ self.now.shed }
    {
        self.ahead() - mean + self.shed
    }
}
