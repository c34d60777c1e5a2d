// The curve page: a row of 72 bytes for each group, with its season and block, its mean and spread, and four points of its curve.
#![tactic(auto)]

ghost use Rattle.std.specs.Prelude.{◌≡◌, true, ◌≤◌, ◌<◌, ◌*◌, pos, length};
ghost use Rattle.text_writer.specs.Write.{TextWritten, laid_at};
ghost use Rattle.curve_set.specs.Curves.{pair_in_range, curves_in_range};
ghost use Rattle.curve_page.specs.internal.RowValues.{row_values};
ghost use Rattle.curve_page.specs.Page.{page_row, page_of, page_length, PageWritten};

use curve_probability::offline_probabilities;
use curve_set::{CurveSet, Pair, curves_in_range};
use integer::magnitude;
use text_line::piece::part;
use text_refusal::refusal::Refusal;
use text_writer::row::write_row;

// The names of the four seasons, each padded right to 6.
// One byte string, cut by `part`: the law `season_part`, on which the proof of a row stands, is about such a part.
const SEASONS: [u8; 24] = *b"winterspringsummerfall  ";

// The widths of block, mean, spread and the four probabilities.
const WIDTHS: [usize; 7] = [1, 9, 8, 10, 10, 10, 10];

// The distances above X at which a row has piNS, in kW.
const ABOVE: [u32; 4] = [1000000, 2000000, 3000000, 4000000];

// How long a page is: 24 rows of 72 bytes.
const PAGE_BYTES: usize = 1728;

// The numbers of a row: block, mean, spread and four probabilities. Where X lies does not show, so it is 0 here.
// Each entry by name: they are columns of the row, of which the first three are other numbers.
fn row_values(group: usize, pair: Pair) -> [i64; 7]
    requires { pair_in_range pair ≡ true }
    ensures { result ≡ row_values (pos 0) group pair }
{
    let block = (group % 6) as i64;
    let mean = pair.mean as i32;
    let spread = magnitude(pair.spread) as u32;
    let [first, second, third, fourth] = offline_probabilities(ABOVE, mean, spread);
    [
        block,
        pair.mean,
        pair.spread,
        first as i64,
        second as i64,
        third as i64,
        fourth as i64,
    ]
}

// The row of a group at its place.
fn put_row(buffer: &mut [u8], group: usize, pair: Pair) -> Option<usize>
    requires fact_1 { pair_in_range pair ≡ true }
    requires fact_2 { group < 24 }
    ensures { TextWritten (page_row (pos 0) group pair) buffer.old (72 * group) buffer.new result }
{
    let season = 6 * (group / 6);
    let values = row_values(group, pair);
    write_row(
        buffer,
        72 * group,
        part(&SEASONS, season, season + 6),
        &WIDTHS,
        &values,
    )
}

// The rows one after the other, which the buffer has room for.
fn put_rows(buffer: &mut [u8], curves: CurveSet)
    requires fact_1 { curves_in_range curves ≡ true }
    requires fact_2 { page_length ≤ length buffer.old }
    ensures { buffer.new ≡ laid_at buffer.old 0 (page_of curves) }
{
    for group in 0..24 {
        put_row(buffer, group, curves.pairs[group]);
    }
}

// A curve set's page written into a lent buffer.
#[tactic(auto, unfolding(crate::specs::Page::writing_page, crate::specs::Page::page_buffer))]
pub fn write_page(curves: CurveSet, buffer: &mut [u8]) -> Result<(), Refusal>
    ensures { PageWritten curves buffer.old buffer.new result }
{
    if !curves_in_range(curves) {
        return Err(Refusal { number: 1, line: 0 });
    }
    if buffer.len() < PAGE_BYTES {
        return Err(Refusal {
            number: 14,
            line: 0,
        });
    }
    put_rows(buffer, curves);
    Ok(())
}
