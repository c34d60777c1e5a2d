// On which units a number marked suspect turns the snapshot back, and at which line.
ghost use Rattle.std.specs.Prelude.{◌≡◌};
ghost use Rattle.pricing_resource.specs.Suspect.{marks_turn_back, marks, resource_line_count, lines_before_numbers, unmarked_before, suspect_place};
ghost use Rattle.pricing_resource.specs.internal.Verdict.{verdict};

use crate::offline::counted_offline;
use crate::online::is_gen_or_wind;
use crate::{Kind, Resource, Status};

// Whether a mark turns the snapshot back on a generator: that hangs on its kind, its status and its flag, which carry no marks.
fn verdict(kind: Kind, status: Status, cold30: i32) -> bool
    ensures { result ≡ verdict kind status cold30 }
{
    match status {
        Status::On | Status::Startup => is_gen_or_wind(kind),
        Status::Off => counted_offline(kind, status, cold30),
        Status::OffNs => true,
        Status::OnTest | Status::Shutdown | Status::Out => false,
    }
}

// Whether a marked number of a resource turns the snapshot back.
#[tactic(auto, using(crate::proofs::Suspects::generator_verdict, crate::proofs::Suspects::controllable_verdict, crate::proofs::Suspects::load_verdict))]
fn marks_turn_back(resource: Resource) -> bool
    ensures { result ≡ marks_turn_back resource }
{
    match resource {
        Resource::Generator(g) => verdict(g.kind, g.status, g.cold30),
        Resource::Controllable(_) | Resource::Load(_) => true,
    }
}

// The marks of a resource.
fn marks(resource: Resource) -> u64
    ensures { result ≡ marks resource }
{
    match resource {
        Resource::Generator(g) => g.marks,
        Resource::Controllable(c) => c.marks,
        Resource::Load(l) => l.marks,
    }
}

// How many lines a resource has. Beside `lines_before_numbers`: two names of the definitions, and docs/STATEMENTS.md has this one; one function would take both
// its answers.
pub fn resource_line_count(resource: Resource) -> usize
    ensures { result ≡ resource_line_count resource }
{
    match resource {
        Resource::Generator(_) => 9,
        Resource::Controllable(_) | Resource::Load(_) => 6,
    }
}

// How many of a resource's lines stand before its numbers.
fn lines_before_numbers(resource: Resource) -> usize
    ensures { result ≡ lines_before_numbers resource }
{
    match resource {
        Resource::Generator(_) => 3,
        Resource::Controllable(_) | Resource::Load(_) => 2,
    }
}

// How many numbers stand before the first marked one; 5 where none of the first five is marked: that many do.
// 5 and no Option: `suspect_place` of specs/Suspect.antt adds it as it is.
#[tactic(auto, using(crate::proofs::Suspects::before_first))]
fn unmarked_before(marks: u64) -> usize
    ensures { result ≡ unmarked_before 5 marks }
{
    marks.trailing_zeros().min(5) as usize
}

// Which of a resource's lines holds its first marked number, where that turns the snapshot back; 0 where it does not.
// 0 and no Option: the definitions `suspect_place` and `suspect_line` have it, and the promise `SnapshotIsRefusedFirst` speaks of a line that is 0.
pub fn suspect_place(resource: Resource) -> usize
    ensures { result ≡ suspect_place resource }
{
    let held = marks(resource);
    if held == 0 {
        return 0;
    }
    if !marks_turn_back(resource) {
        return 0;
    }
    lines_before_numbers(resource) + unmarked_before(held) + 1
}
