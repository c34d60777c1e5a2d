// A resource made of its status, by its place in the list of words, of its marks and of its values.
ghost use Rattle.std.specs.Prelude.{◌≡◌, ℕ, ◌≤◌, nat_abs};
ghost use Rattle.text_schema.specs.Schema.{value};
ghost use Rattle.pricing_resource_text.specs.Resource.{status_of, generator_of, controllable_of, load_of};

use pricing_resource::{Controllable, Generator, Kind, Load, Resource, Status};

// The numbers read, in half the width. No `TryFrom`: each number is in its range, so nothing can fail.
pub(crate) fn narrowed<const N: usize>(v: [i64; N]) -> [i32; N]
    requires { (place : ℕ) → nat_abs (value v place) ≤ 2000000 }
    ensures { result ≡ v.entry }
{
    let mut out = [0i32; N];
    for i in 0..N {
        out[i] = v[i] as i32;
    }
    out
}

// A status by its place in the list of words, by which hosts name it; no `From`, since docs/STATEMENTS.md names `status_of`.
pub fn status_of(index: usize) -> Status
    ensures { result ≡ status_of index }
{
    match index {
        0 => Status::On,
        1 => Status::Off,
        2 => Status::OffNs,
        3 => Status::OnTest,
        4 => Status::Startup,
        5 => Status::Shutdown,
        _ => Status::Out,
    }
}

// A resource of each kind by its values.
pub(crate) fn generator_of(kind: Kind, status: Status, marks: u64, v: [i32; 6]) -> Resource
    ensures { result ≡ generator_of kind status marks v }
{
    let [net, lsl, hsl, base, nonspin, cold30] = v;
    Resource::Generator(Generator {
        kind,
        status,
        net,
        lsl,
        hsl,
        base,
        nonspin,
        cold30,
        marks,
    })
}

pub(crate) fn controllable_of(marks: u64, v: [i32; 4]) -> Resource
    ensures { result ≡ controllable_of marks v }
{
    let [base, lpc, nonspin, regup] = v;
    Resource::Controllable(Controllable {
        base,
        lpc,
        nonspin,
        regup,
        marks,
    })
}

pub(crate) fn load_of(marks: u64, v: [i32; 4]) -> Resource
    ensures { result ≡ load_of marks v }
{
    let [rrsok, net, lpc, rrs] = v;
    Resource::Load(Load {
        rrsok,
        net,
        lpc,
        rrs,
        marks,
    })
}
