// The rows of a text that was read already: each id and each row of numbers laid in its place.
ghost use Rattle.std.specs.Prelude.{◌≡◌, List, [], ◌∷◌, ◌++◌, ℕ, ◌*◌, ◌≤◌, ◌<◌, pos, length};
ghost use Rattle.text_refusal.specs.Bytes.{bytes};
ghost use Rattle.text_line.specs.Field.{got, field_at};
ghost use Rattle.text_number.specs.declared.marked.Marked.{Marked};
ghost use Rattle.text_number.specs.Marked.{numbers_of, marks_of};
ghost use Rattle.text_id.specs.Id.{id_field};
ghost use Rattle.text_schema.specs.Schema.{laid_over};
ghost use Rattle.pricing_resource_text.specs.Resource.{of_kind, resource_at};
ghost use Rattle.pricing_snapshot.specs.Snapshot.{Entry, resources_at};
ghost use Rattle.pricing_held_reading.specs.Reading.{id_row, number_row, id_rows, number_rows};
ghost use Rattle.pricing_held_reading.specs.internal.Laying.{Got, Laid, NumbersStand};

use crate::values::{kind_at, lay_numbers, status_at};
use text_line::line::line_value;

// An id laid at the front of its row of 32 bytes, zeros behind it.
#[tactic(auto, unfolding(crate::specs::Reading::id_row))]
fn put_id(row: &mut [u8], id: &[u8])
    requires { (length id.now ≤ 32) × (length row.old ≡ 32) }
    ensures { row.new ≡ id_row id.now }
{
    row.fill(0);
    for (i, &byte) in id.iter().enumerate() {
        row[i] = byte;
    }
}

// The id whose line starts at a position laid in its row; where the next line starts.
fn lay_id(text: &[u8], at: usize, row: &mut [u8]) -> usize
    requires { Got (field_at (id_field (bytes "id=")) text.now at) × (length row.old ≡ 32) }
    ensures { Laid (field_at (id_field (bytes "id=")) text.now at) id_row row.new result }
{
    let id = line_value(text, at, b"id=");
    put_id(row, id);
    at + 3 + id.len() + 1
}

// The lines of a generator after its kind laid in its row of 9 numbers; where the next line starts. Entry by entry here and in the next: each is another thing,
// and the numbers between are laid by `lay_numbers`. A row stays a range of the numbers and no array of nine: once a loan of chunks is over, a proof knows
// the slice's length and no element.
fn lay_generator(text: &[u8], kind: usize, at: usize, row: &mut [i64]) -> usize
    requires { (kind < 4) × Got (of_kind text.now kind at) × (length row.old ≡ 9) }
    ensures { Laid (of_kind text.now kind at) number_row row.new result }
{
    let status = status_at(text, at);
    row[0] = kind as i64;
    row[1] = status.value as i64;
    let sizes = [4usize, 4, 4, 5, 8, 7];
    let six = lay_numbers(text, status.next, &sizes, &mut row[2..8]);
    row[8] = six.value as i64;
    six.next
}

// The four numbers of a load after its kind laid in its row of 9 numbers; where the next line starts.
fn lay_load(text: &[u8], kind: usize, at: usize, sizes: &[usize], row: &mut [i64]) -> usize
    requires { (kind < 6) × (length sizes.now ≡ 4) × (length row.old ≡ 9) × ((values : List Marked) × ((next : ℕ) × NumbersStand text.now at sizes.now values next)) }
    ensures { (values : List Marked) (next : ℕ) → NumbersStand text.now at sizes.now values next → (result ≡ next) × (row.new ≡ pos kind ∷ pos 0 ∷ (numbers_of values ++ (pos 0 ∷ pos 0 ∷ pos (marks_of values) ∷ []))) }
{
    row[0] = kind as i64;
    row[1] = 0;
    row[6] = 0;
    row[7] = 0;
    let four = lay_numbers(text, at, sizes, &mut row[2..6]);
    row[8] = four.value as i64;
    four.next
}

// The lines of a resource after its id laid in its row of 9 numbers; where the next line starts. The kind stays the number that hosts read in the row.
fn lay_resource(text: &[u8], at: usize, row: &mut [i64]) -> usize
    requires { Got (resource_at text.now at) × (length row.old ≡ 9) }
    ensures { Laid (resource_at text.now at) number_row row.new result }
{
    let word = kind_at(text, at);
    let kind = word.value;
    let start = word.next;
    if kind < 4 {
        return lay_generator(text, kind, start, row);
    }
    if kind == 4 {
        let sizes = [5usize, 4, 8, 6];
        return lay_load(text, kind, start, &sizes, row);
    }
    let sizes = [6usize, 4, 4, 4];
    lay_load(text, kind, start, &sizes, row)
}

// So many resources laid in their rows.
pub(crate) fn lay_rows(text: &[u8], at: usize, count: usize, ids: &mut [u8], numbers: &mut [i64])
    requires { Got (resources_at resource_at count [] text.now at) × (32 * count ≤ length ids.old) × (9 * count ≤ length numbers.old) }
    ensures { (entries : List Entry) (last : ℕ) → resources_at resource_at count [] text.now at ≡ got entries last → (ids.new ≡ laid_over (id_rows entries) ids.old) × (numbers.new ≡ laid_over (number_rows entries) numbers.old) }
{
    let mut next = at;
    for i in 0..count {
        let after = lay_id(text, next, &mut ids[32 * i..32 * i + 32]);
        next = lay_resource(text, after, &mut numbers[9 * i..9 * i + 9]);
    }
}
