// The program `curves` as a library step: input in parts of any size, in constant memory. `start` comes before any input, `input::feed` takes each part of it,
// and `output::finish` gives what is printed at its end.
#![tactic(auto)]

mod ending;
pub mod input;
pub mod output;
mod taken;

ghost use Rattle.std.specs.Prelude.{◌≡◌};
ghost use Rattle.program_curves.specs.Stream.{start, stream_of, is_refused};

use curve_record::{Record, fresh};
use text_refusal::refusal::Refusal;

// What the stream waits for, or why it ended: two texts can be refused, and `fed` and `finished` of specs/Stream.antt go by which.
#[derive(Clone, Copy)]
pub enum Stage {
    // The `voll` line, then the `floor` line.
    Voll,
    Floor,
    Hours,
    // Refused; the text is `hour`, or `settle`.
    RefusedHour(Refusal),
    RefusedSettle(Refusal),
}

// The stream between two parts of the input. The bytes of the line or hour that has begun stand at the start of a lent buffer, apart from the stream, so that
// they are not copied with it; the contracts of `input::feed` and `output::finish`, which docs/STATEMENTS.md names, take both.
#[derive(Clone, Copy)]
pub struct Stream {
    pub stage: Stage,
    pub voll: i64,
    pub floor: i64,
    pub history: Record,
    pub held: usize,
}

// The stream before any input.
pub fn start() -> Stream
    ensures { result ≡ stream_of start }
{
    Stream {
        stage: Stage::Voll,
        voll: 0,
        floor: 0,
        history: fresh(),
        held: 0,
    }
}

// Whether the stream is refused, so that nothing more is read.
pub fn is_refused(stage: Stage) -> bool
    ensures { result ≡ is_refused stage }
{
    matches!(stage, Stage::RefusedHour(_) | Stage::RefusedSettle(_))
}
