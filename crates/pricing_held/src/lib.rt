// A snapshot held as values: a header of eight numbers, and for each resource a row of bytes with its id and a row of numbers with its kind, its status and its
// numbers and their marks. How many resources are held, and the first line of their text that would be refused. Header, ids and numbers stay three slices:
// hosts lend them so through the C interface, and docs/STATEMENTS.md names the functions with them.
#![tactic(auto)]

ghost use Rattle.std.specs.Prelude.{◌≡◌, ◌≤◌, ◌*◌, [], length};
ghost use Rattle.std.specs.Simd.{first_chunks};
ghost use Rattle.text_schema.specs.Checked.{first_refused};
ghost use Rattle.pricing_held.specs.Rows.{held_count, place_of, header_held};
ghost use Rattle.pricing_held.specs.Lines.{rows_lines, held_answer};
ghost use Rattle.pricing_held.specs.internal.Checks.{rows_in};

use crate::rows::check_rows;
use crate::suspect::suspect_line;
use integer::magnitude;
use pricing_sums::header::{Header, header_fault};
use text_refusal::refusal::Refusal;

mod rows;
mod suspect;
mod values;

// How many resources are held: as many as there are whole rows of 32 bytes and of 9 numbers.
#[tactic(auto, unfolding(crate::specs::Rows::held_count))]
pub fn held_count(ids: &[u8], numbers: &[i64]) -> usize
    ensures { result ≡ held_count ids.now numbers.now }
{
    (ids.len() / 32).min(numbers.len() / 9)
}

// The rows of numbers of the resources held.
#[tactic(auto, using(crate::proofs::Chunks::rows_taken, crate::proofs::Chunks::length_chunks))]
pub fn held_number_rows<'a>(ids: &[u8], numbers: &'a [i64]) -> &'a [[i64; 9]]
    ensures rows { result.now ≡ first_chunks 9 (held_count ids.now numbers.now) numbers.now }
    ensures count { length result.now ≡ held_count ids.now numbers.now }
{
    let (rows, _) = numbers.as_chunks::<9>();
    &rows[..held_count(ids, numbers)]
}

// A number as a place in a list of words, since hosts name kinds and statuses by it: one below 0 stands outside the list, as one above does;
// 7 and no Option, as `place_of` of specs/Rows.antt.
pub fn place_of(z: i64) -> usize
    ensures { result ≡ place_of z }
{
    if z < 0 {
        return 7;
    }
    magnitude(z) as usize
}

// The header of so many resources: its eighth number is not looked at. No `From`: it takes a count as well, and contracts name the definition `header_held`.
fn header_held(header: &[i64; 8], count: usize) -> Header
    requires { count ≤ 1152921504606846976 }
    ensures { result ≡ header_held header.now count }
{
    let [month, hour, lambda, factor, prc, eea1, short, _] = *header;
    Header {
        month,
        hour,
        lambda,
        factor,
        prc,
        eea1,
        short,
        count: count as i64,
    }
}

// The first refused line of the rows; where they are few, the table of their ids is small. Two arrays and no const parameter: the count is known only as the
// program runs, and there is no heap.
fn rows_checked(ids: &[u8], rows: &[[i64; 9]]) -> Result<(), Refusal>
    requires { (length rows.now ≤ 4096) × (32 * length rows.now ≤ length ids.now) }
    ensures { result ≡ first_refused 9 (rows_lines [] (rows_in ids.now 0 rows.now)) }
{
    if rows.len() <= 64 {
        let mut starts = [0usize; 192];
        return check_rows(ids, rows, &mut starts);
    }
    let mut starts = [0usize; 12288];
    check_rows(ids, rows, &mut starts)
}

// Whether the text of a snapshot held as values can be written, or its first refused line, or the first that a mark turns back.
pub fn held_check(header: &[i64; 8], ids: &[u8], numbers: &[i64]) -> Result<(), Refusal>
    ensures { result ≡ held_answer header.now ids.now numbers.now }
{
    let rows = held_number_rows(ids, numbers);
    let line = header_fault(header_held(header, rows.len()));
    if line != 0 {
        return Err(Refusal { number: 7, line });
    }
    rows_checked(ids, rows)?;
    let suspect = suspect_line(rows);
    if suspect != 0 {
        return Err(Refusal {
            number: 15,
            line: suspect,
        });
    }
    Ok(())
}
