// The rows of a snapshot held as values, one after the other: each id is new, and each number is in its range.
ghost use Rattle.std.specs.Prelude.{◌≡◌, ◌≤◌, ◌+◌, ◌*◌, [], length};
ghost use Rattle.text_id_table.specs.Ids.{id_at};
ghost use Rattle.text_id_table.specs.internal.Kept.{IdTable, Room};
ghost use Rattle.text_schema.specs.Checked.{first_refused};
ghost use Rattle.text_schema.specs.Schema.{value};
ghost use Rattle.pricing_held.specs.Rows.{place_of};
ghost use Rattle.pricing_held.specs.Lines.{rows_lines};
ghost use Rattle.pricing_held.specs.internal.Checks.{RowChecked, RowRoom, line_count, row_in, rows_in};

use crate::place_of;
use crate::values::check_values;
use text_id::is_id;
use text_id_table::{id_at, slot_of};
use text_refusal::refusal::Refusal;

// How many lines a row has, by its kind, which stays the number that hosts write: `lines_of_kind` of specs/Lines.antt goes by it.
pub(crate) fn row_lines(values: &[i64; 9]) -> usize
    ensures { result ≡ line_count (place_of (value values.now 0)) }
{
    if place_of(values[0]) < 4 {
        return 9;
    }
    6
}

// A row: its first refused line, the row's first line being `line`. An id that is new is put into the table. The steps on the table
// stand here and in `new_id` of pricing_snapshot: as one public function they would need a `requires`, that a slot is left.
#[tactic(auto, using(text_id_table::proofs::Table::slot_within, crate::proofs::RowChecks::checked_ill_formed, crate::proofs::RowChecks::checked_repeated, crate::proofs::RowChecks::checked_new))]
fn check_row(
    ids: &[u8],
    i: usize,
    values: &[i64; 9],
    line: usize,
    starts: &mut [usize],
) -> Result<(), Refusal>
    requires { RowRoom ids.now i line starts.old }
    ensures { RowChecked (row_in (id_at 0 ids.now (32 * i)) values.now) line ids.now starts.old starts.new result }
{
    let id = id_at(ids, 0, 32 * i);
    if !is_id(id) {
        return Err(Refusal { number: 6, line });
    }
    let slot = slot_of(ids, 0, starts, id);
    if 0 < starts[slot] {
        return Err(Refusal { number: 8, line });
    }
    starts[slot] = 32 * i + 1;
    check_values(values, line + 1)
}

// The rows, the first of them at line 9, their ids kept in a table that is empty. That ids and rows fit is a clause and no type: `held_number_rows`, which
// docs/STATEMENTS.md names, gives the rows alone, and a struct of rows and ids would be taken apart in each function.
pub(crate) fn check_rows(ids: &[u8], rows: &[[i64; 9]], starts: &mut [usize]) -> Result<(), Refusal>
    requires fact_1 { IdTable 0 ids.now starts.old [] }
    requires fact_2 { Room (length rows.now) starts.old }
    requires fact_3 { 32 * length rows.now ≤ length ids.now }
    ensures { result ≡ first_refused 9 (rows_lines [] (rows_in ids.now 0 rows.now)) }
{
    let mut line: usize = 9;
    for (i, values) in rows.iter().enumerate() {
        check_row(ids, i, values, line, starts)?;
        line += row_lines(values);
    }
    Ok(())
}
