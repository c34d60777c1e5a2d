// Digits: a number's magnitude as it is written. Nineteen digits fit a machine word, and more are beyond every machine number.
ghost use Rattle.std.specs.Prelude.{◌≡◌, ◌<◌, length};
ghost use Rattle.text_number.specs.Number.{all_digits};
ghost use Rattle.text_number.specs.internal.Natural.{held_natural};

use crate::NumberError;

// Whether every byte is a digit.
fn all_digits(bytes: &[u8]) -> bool
    ensures { result ≡ all_digits bytes.now }
{
    bytes.iter().all(|byte| byte.is_ascii_digit())
}

// More than nineteen digits: beyond every machine number, or badly written.
#[tactic(auto, using(crate::proofs::Naturals::held_led, crate::proofs::Naturals::held_broken, crate::proofs::Naturals::held_large))]
fn large_natural(digits: &[u8]) -> Result<u64, NumberError>
    requires { 19 < length digits.now }
    ensures { result ≡ held_natural digits.now }
{
    if digits[0] == b'0' {
        return Err(NumberError::Malformed);
    }
    if all_digits(digits) {
        return Err(NumberError::Outside);
    }
    Err(NumberError::Malformed)
}

// The natural number that bytes write: at least one digit, digits alone, no leading zero.
// By hand and no `parse`: that takes a leading zero and a `+`, which are badly written here, and more than nineteen digits are another error.
#[tactic(auto, using(crate::proofs::Naturals::digits_start, crate::proofs::Naturals::digits_next, crate::proofs::Naturals::digits_fit, crate::proofs::Naturals::digits_below, crate::proofs::Naturals::digits_above, crate::proofs::Naturals::held_broken, crate::proofs::Naturals::held_one, crate::proofs::Naturals::held_no_bytes, crate::proofs::Naturals::held_zero_led, crate::proofs::Naturals::held_many))]
pub(crate) fn natural_of(digits: &[u8]) -> Result<u64, NumberError>
    ensures { result ≡ held_natural digits.now }
{
    if 19 < digits.len() {
        return large_natural(digits);
    }
    let mut value: u64 = 0;
    for &byte in digits {
        // One test for each end: the laws `digits_below` and `digits_above` answer one each.
        if byte < 48 {
            return Err(NumberError::Malformed);
        }
        if 57 < byte {
            return Err(NumberError::Malformed);
        }
        value = value * 10 + (byte as u64 - 48);
    }
    if digits.len() == 1 {
        return Ok(value);
    }
    if digits.is_empty() {
        return Err(NumberError::Malformed);
    }
    if digits[0] == b'0' {
        return Err(NumberError::Malformed);
    }
    Ok(value)
}
