// The values of a text that was read already, taken with one look at each byte.
ghost use Rattle.std.specs.Prelude.{Bool, ◌≡◌, List, ℕ, ◌+◌, ◌≤◌, ◌<◌, pos, length};
ghost use Rattle.text_line.specs.Field.{got, field_at};
ghost use Rattle.text_number.specs.declared.marked.Marked.{Marked};
ghost use Rattle.text_number.specs.Marked.{numbers_of, marks_of};
ghost use Rattle.pricing_resource_text.specs.Resource.{kind_field, status_field};
ghost use Rattle.pricing_held_reading.specs.internal.Laying.{Got, DigitsStand, NumberStands, NumbersStand};

use text_number::marked::Marked;

// What was taken from a text, and where the next line starts.
#[derive(Clone, Copy)]
pub(crate) struct Taken<T> {
    pub value: T,
    pub next: usize,
}

// The place of the kind whose line starts at a position, known by its first letter, `w`, `i`, `n`, `c` or `g`, and `nclr` by its second. It is a sum of tests, since a
// processor could not foresee a branch.
pub(crate) fn kind_at(text: &[u8], at: usize) -> Taken<usize>
    requires { Got (field_at kind_field text.now at) }
    ensures { field_at kind_field text.now at ≡ got result.value result.next }
{
    let first = text[at + 5];
    let w = (first == 119) as usize;
    let i = (first == 105) as usize;
    let n = (first == 110) as usize;
    let c = (first == 99) as usize;
    let nc = (text[at + 6] == 99) as usize;
    Taken {
        value: w + 2 * i + 3 * n + 4 * c + 2 * nc,
        next: at + 9 + w + n,
    }
}

// The place of the status whose line starts at a position and is not the last, known by its second letter; of `ON` and `ONTEST` by the third, of `OFF` and
// `OFFNS` by the fourth. A sum of tests, as in `kind_at`.
pub(crate) fn status_at(text: &[u8], at: usize) -> Taken<usize>
    requires { Got (field_at status_field text.now at) × (at + 10 < length text.now) }
    ensures { field_at status_field text.now at ≡ got result.value result.next }
{
    let second = text[at + 8];
    let on_test = (second == 78) as usize * (text[at + 9] == 84) as usize;
    let off = (second == 70) as usize;
    let off_ns = off * (text[at + 10] == 78) as usize;
    let startup = (second == 84) as usize;
    let shutdown = (second == 72) as usize;
    let out = (second == 85) as usize;
    Taken {
        value: off + off_ns + 3 * on_test + 4 * startup + 5 * shutdown + 6 * out,
        next: at + 10 + off + 2 * off_ns + 4 * on_test + 5 * startup + 6 * shutdown + out,
    }
}

// The number at a position by its digits, which end before byte 10, or before a mark and byte 10. The first byte is always a digit, so the loop starts behind it. A
// mark, byte 63, is taken as one digit more, of worth 15, and taken away again: so the loop asks one thing of each byte. A `for` is no plainer here: it would ask
// each byte as well whether the text ends, and need an answer for that.
fn digits_at(text: &[u8], at: usize) -> Taken<Marked>
    requires { (n : ℕ) × ((suspect : Bool) × ((next : ℕ) × DigitsStand text.now at n suspect next)) }
    ensures { (n : ℕ) (suspect : Bool) (next : ℕ) → DigitsStand text.now at n suspect next → result ≡ record { value = record { number = pos n; suspect = suspect }; next = next } }
{
    let mut n = text[at] as u64 - 48;
    let mut i: usize = 1;
    while text[at + i] != 10 {
        n = n * 10 + (text[at + i] as u64 - 48);
        i += 1;
    }
    if text[at + i - 1] == 63 {
        return Taken {
            value: Marked {
                number: ((n - 15) / 10) as i64,
                suspect: true,
            },
            next: at + i + 1,
        };
    }
    Taken {
        value: Marked {
            number: n as i64,
            suspect: false,
        },
        next: at + i + 1,
    }
}

// The number at a position, which ends before byte 10. Here a branch is taken: a processor goes on before it has seen whether there is a sign.
pub(crate) fn number_at(text: &[u8], at: usize) -> Taken<Marked>
    requires { (m : Marked) × ((next : ℕ) × NumberStands text.now at m next) }
    ensures { (m : Marked) (next : ℕ) → NumberStands text.now at m next → result ≡ record { value = m; next = next } }
{
    if text[at] == 45 {
        let digits = digits_at(text, at + 1);
        let Marked { number, suspect } = digits.value;
        return Taken {
            value: Marked {
                number: -number,
                suspect,
            },
            next: digits.next,
        };
    }
    digits_at(text, at)
}

// Numbers one after the other, each behind a key of so many bytes, laid in their places; their marks, and where the next line starts.
pub(crate) fn lay_numbers(text: &[u8], at: usize, sizes: &[usize], row: &mut [i64]) -> Taken<u64>
    requires { ((values : List Marked) × ((next : ℕ) × NumbersStand text.now at sizes.now values next)) × (length sizes.now ≡ length row.old) × (length sizes.now ≤ 8) }
    ensures { (values : List Marked) (next : ℕ) → NumbersStand text.now at sizes.now values next → (result ≡ record { value = marks_of values; next = next }) × (row.new ≡ numbers_of values) }
{
    let mut next = at;
    let mut marks: u64 = 0;
    let mut mark: u64 = 1;
    for (i, size) in sizes.iter().enumerate() {
        let read = number_at(text, next + *size);
        let Marked { number, suspect } = read.value;
        row[i] = number;
        if suspect {
            marks += mark;
        }
        mark *= 2;
        next = read.next;
    }
    Taken { value: marks, next }
}
