// One resource of a snapshot: its kind and its fields.
#![tactic(auto)]

pub mod offline;
pub mod online;
pub mod suspect;

// The kinds of generator: other intermittent units are Irr.
#[derive(Clone, Copy)]
pub enum Kind {
    Gen,
    Wind,
    Irr,
    Nuke,
}

#[derive(Clone, Copy)]
pub enum Status {
    On,
    Off,
    OffNs,
    OnTest,
    Startup,
    Shutdown,
    Out,
}

// Power in kW; cold30 is a flag, 0 or 1. In each kind of resource `marks` says which of its numbers are marked suspect, in the order of its lines: 1 for the first,
// 2 for the second, 4 for the third, and so on. A flag stays a number and no bool: `counted_offline` and `part_of`, which docs/STATEMENTS.md names, are stated
// for every number. The marks stay one number: `with_marks` and `suspect_place` of the definitions go by it, and hosts hold it so in their rows.
#[derive(Clone, Copy)]
pub struct Generator {
    pub kind: Kind,
    pub status: Status,
    pub net: i32,
    pub lsl: i32,
    pub hsl: i32,
    pub base: i32,
    pub nonspin: i32,
    pub cold30: i32,
    pub marks: u64,
}

// A controllable load resource, in kW.
#[derive(Clone, Copy)]
pub struct Controllable {
    pub base: i32,
    pub lpc: i32,
    pub nonspin: i32,
    pub regup: i32,
    pub marks: u64,
}

// Another load resource, in kW; rrsok is a flag, 0 or 1.
#[derive(Clone, Copy)]
pub struct Load {
    pub rrsok: i32,
    pub net: i32,
    pub lpc: i32,
    pub rrs: i32,
    pub marks: u64,
}

#[derive(Clone, Copy)]
pub enum Resource {
    Generator(Generator),
    Controllable(Controllable),
    Load(Load),
}
