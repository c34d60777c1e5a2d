// The SCED runs of an hour, in the part of its text after the `runs` line.
ghost use Rattle.std.specs.Prelude.{◌≡◌, ◌≤◌};
ghost use Rattle.text_schema.specs.Schema.{read_fields};
ghost use Rattle.curve_hour.specs.Hour.{Run, run_fields, run_of, sced_reserve};
ghost use Rattle.curve_hour.specs.internal.Intervals.{intervals_of, intervals_in};
ghost use Rattle.curve_hour.specs.internal.Ranges.{RunInRange};

use std::marker::Model;
use text_refusal::refusal::Fault;
use text_schema::read_lines;

// The values of a run's lines, each in its range.
#[derive(Drop)]
struct RunValues {
    hsl: i64,
    base: i64,
    rrs: i64,
    nclr: i64,
    reg: i64,
    ns: i64,
    offns: i64,
    cold30: i64,
    short: i64,
}

impl Model for RunValues {
    ghost Value = { Run };

    ghost view = { λ r. record { hsl = r.hsl; base = r.base; rrs = r.rrs; nclr = r.nclr; reg = r.reg; ns = r.ns; offns = r.offns; cold30 = r.cold30; short = r.short } };

    ghost invariant = { λ r. RunInRange (record { hsl = r.hsl; base = r.base; rrs = r.rrs; nclr = r.nclr; reg = r.reg; ns = r.ns; offns = r.offns; cold30 = r.cold30; short = r.short }) };
}

impl RunValues {
    // The values in the order of their lines.
    // No `From`: it takes any array, and these numbers have to be in their ranges.
    fn of(values: &[i64; 9]) -> RunValues
        requires { RunInRange (run_of values.now) }
        ensures { result ≡ run_of values.now }
    {
        let [hsl, base, rrs, nclr, reg, ns, offns, cold30, short] = *values;
        RunValues {
            hsl,
            base,
            rrs,
            nclr,
            reg,
            ns,
            offns,
            cold30,
            short,
        }
    }

    // SCED.
    fn reserve(&self) -> i64
        ensures { result ≡ sced_reserve self.now }
    {
        self.hsl - self.base + self.rrs + self.nclr + self.reg + self.ns + self.offns + self.cold30
            - self.short
    }
}

// The sum of the runs' reserves, and where their lines end.
// A struct of its own: its first field says what was read; a generic one would say `value` everywhere.
#[derive(Clone, Copy)]
pub(crate) struct Intervals {
    pub(crate) sum: i64,
    pub(crate) next: usize,
}

// One run: its reserve and where its lines end.
fn run_at(part: &[u8], at: usize) -> Result<Intervals, Fault>
    ensures { result ≡ intervals_of 1 (read_fields run_fields part.now at) }
{
    let mut values = [0i64; 9];
    let next = read_lines(
        part,
        at,
        b"hsl=base=rrs=nclr=reg=ns=offns=cold30=short=",
        &[0; 9],
        &[100000000; 9],
        &mut values,
    )?;
    Ok(Intervals {
        sum: RunValues::of(&values).reserve(),
        next,
    })
}

// The interval reader: the runs that stand in a part of the hour's text.
pub(crate) fn read_intervals(part: &[u8], runs: u64) -> Result<Intervals, Fault>
    requires { runs ≤ 60 }
    ensures { result ≡ intervals_in runs part.now }
{
    let mut sum: i64 = 0;
    let mut next: usize = 0;
    for _run in 0..runs {
        let run = run_at(part, next)?;
        sum += run.sum;
        next = run.next;
    }
    Ok(Intervals { sum, next })
}
