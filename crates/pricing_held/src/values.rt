// The numbers of a row: kind, status and the numbers of the kind, the first that is refused.
ghost use Rattle.std.specs.Prelude.{◌≡◌, ◌≤◌, suc, ◌∷◌, length};
ghost use Rattle.text_schema.specs.Schema.{value};
ghost use Rattle.text_schema.specs.Checked.{first_refused, checked_line};
ghost use Rattle.pricing_resource_text.specs.Resource.{kind_field};
ghost use Rattle.pricing_held.specs.Rows.{place_of};
ghost use Rattle.pricing_held.specs.Lines.{lines_of_kind};
ghost use Rattle.pricing_held.specs.internal.Checks.{numbers_checked, flag_checked, row_of};

use crate::place_of;
use integer::magnitude;
use integer::range::is_within;
use text_refusal::refusal::Refusal;

// The first of some numbers that is out of its range, the first of them standing at a line. Lows and highs stay apart, as `numbers_checked` of
// specs/internal/Checks.antt takes them.
fn check_numbers(values: &[i64], lows: &[i64], highs: &[i64], line: usize) -> Result<(), Refusal>
    requires { (length values.now ≡ length lows.now) × ((length values.now ≡ length highs.now) × ((length values.now ≤ 8) × (line ≤ 100000))) }
    ensures { result ≡ numbers_checked line lows.now highs.now values.now }
{
    for (i, value) in values.iter().enumerate() {
        if !is_within(*value, lows[i], highs[i]) {
            return Err(Refusal {
                number: 7,
                line: line + i,
            });
        }
    }
    Ok(())
}

// A flag, which carries no mark: one that is marked is badly written.
fn check_flag(z: i64, marked: bool, line: usize) -> Result<(), Refusal>
    ensures { result ≡ flag_checked line marked z }
{
    if marked {
        return Err(Refusal { number: 6, line });
    }
    if !is_within(z, 0, 1) {
        return Err(Refusal { number: 7, line });
    }
    Ok(())
}

// The numbers of a generator after its kind: its status, then five numbers and a flag, whose mark is the sixth. Here and in the next two
// the clause bounds a line that is only counted up from here: a type for it would be made and opened at each step.
#[tactic(auto, using(crate::proofs::RowLines::status_refused, crate::proofs::RowLines::generator_refused, crate::proofs::RowLines::generator_checked))]
fn check_generator(values: &[i64; 9], line: usize) -> Result<(), Refusal>
    requires { line ≤ 90000 }
    ensures { result ≡ first_refused line (lines_of_kind 0 (row_of values.now)) }
{
    if 6 < place_of(values[1]) {
        return Err(Refusal { number: 6, line });
    }
    let lows = [-2000000i64, 0, 0, 0, 0];
    let highs = [2000000i64; 5];
    check_numbers(&values[2..7], &lows, &highs, line + 1)?;
    let marks = magnitude(values[8]);
    check_flag(values[7], marks / 32 % 2 == 1, line + 6)
}

// The numbers of a load after its kind: a flag and three numbers.
fn check_load(values: &[i64; 9], line: usize) -> Result<(), Refusal>
    requires { line ≤ 90000 }
    ensures { result ≡ first_refused line (lines_of_kind 5 (row_of values.now)) }
{
    let marks = magnitude(values[8]);
    check_flag(values[2], marks % 2 == 1, line)?;
    let lows = [0i64; 3];
    let highs = [2000000i64; 3];
    check_numbers(&values[3..6], &lows, &highs, line + 1)
}

// The numbers of a controllable load after its kind: four numbers.
fn check_controllable(values: &[i64; 9], line: usize) -> Result<(), Refusal>
    requires { line ≤ 90000 }
    ensures { result ≡ first_refused line (lines_of_kind 4 (row_of values.now)) }
{
    let lows = [0i64; 4];
    let highs = [2000000i64; 4];
    check_numbers(&values[2..6], &lows, &highs, line)
}

// The numbers of a row, the kind's line first. The kind stays the number that hosts write into the row: `lines_of_kind` of specs/Lines.antt goes by it.
#[tactic(auto, using(crate::proofs::RowLines::kind_refused, crate::proofs::RowLines::kind_passed, crate::proofs::RowLines::of_generator))]
pub(crate) fn check_values(values: &[i64; 9], line: usize) -> Result<(), Refusal>
    requires { line ≤ 80000 }
    ensures { result ≡ first_refused line (checked_line kind_field (place_of (value values.now 0)) ∷ lines_of_kind (place_of (value values.now 0)) (row_of values.now)) }
{
    match place_of(values[0]) {
        0..=3 => check_generator(values, line + 1),
        4 => check_controllable(values, line + 1),
        5 => check_load(values, line + 1),
        _ => Err(Refusal { number: 6, line }),
    }
}
