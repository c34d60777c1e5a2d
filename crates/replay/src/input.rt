// Numbers of the case file: 8 bytes each, the highest first, in two's complement.
ghost use Rattle.std.specs.Prelude.{◌≤◌, IfOk};

use program_input::read_full;
use std::io;
use std::io::Read;

// Bytes that the file does not have stay 0.
pub(crate) fn read_number(input: &mut impl Read) -> io::Result<i64> {
    let mut bytes = [0u8; 8];
    read_full(input, &mut bytes)?;
    Ok(i64::from_be_bytes(bytes))
}

// A number that is not below zero, nor above some other.
pub(crate) fn read_count(input: &mut impl Read, most: usize) -> io::Result<usize>
    ensures { IfOk result (λ count. count ≤ most) }
{
    let count = read_number(input)?.unsigned_abs() as usize;
    Ok(count.min(most))
}

// As many numbers as there is room for.
pub(crate) fn read_numbers(input: &mut impl Read, values: &mut [i64]) -> io::Result<()> {
    for value in values.iter_mut() {
        *value = read_number(input)?;
    }
    Ok(())
}
