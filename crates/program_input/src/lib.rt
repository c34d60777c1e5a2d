// How the programs read their input.
#![tactic(auto)]

ghost use Rattle.std.specs.Prelude.{◌≤◌, ◌<◌, length, take, IfOk};
ghost use Rattle.std.specs.Io.KnownBytes.{Consumes, IsAtEnd};

use std::io;
use std::io::Read;

// Reads until the input ends or the space is full, and gives how many bytes were read: the next ones of the input, at the start of the space.
// A read that fails is not the end of the input. By hand: `read_exact` does not say how many bytes came before the end, and `read_to_end` puts them on
// the heap.
pub fn read_full<R: Read>(input: &mut R, space: &mut [u8]) -> io::Result<usize>
    ensures within { IfOk result (λ count. count ≤ length space.old) }
    ensures bytes { IfOk result (λ count. Consumes (R.remaining input.old) (R.remaining input.new) (take count space.new)) }
    ensures end { IfOk result (λ count. count < length space.old → IsAtEnd (R.remaining input.new)) }
{
    let mut length: usize = 0;
    while length < space.len() {
        let count = input.read(&mut space[length..])?;
        if count == 0 {
            break;
        }
        length += count;
    }
    Ok(length)
}
