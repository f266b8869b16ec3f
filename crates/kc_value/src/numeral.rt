//! Which texts count as numbers in a comparison.

ghost use Rattle.std.specs.Prelude.{◌≡◌};
ghost use Rattle.kc_value.specs.Numerals.{has_no_leading_zero, decimal_up_to, number_of_text};

use kc_statement::{after_hex_sign, after_minus, digits_up_to, hex_digits};

/// The greatest number after a `-`.
const MOST_BELOW_ZERO: u64 = 1 << 63;

/// Whether digits are as a decimal number is written: not empty, and with no 0 in front of others.
fn has_no_leading_zero(digits: &[u8]) -> bool
    ensures { result ≡ has_no_leading_zero digits.now }
{
    match digits {
        [] => false,
        [_] => true,
        [first, _, ..] => *first != b'0',
    }
}

/// The number that a decimal number without a sign spells, none past a bound.
fn decimal_up_to(bound: u64, text: &str) -> Option<u64>
    ensures { result ≡ decimal_up_to bound text.now }
{
    if has_no_leading_zero(text.as_bytes()) {
        digits_up_to(bound, text)
    } else {
        None
    }
}

/// The number that a text without a type spells: decimal digits without a leading zero, perhaps after a `-`, or hex
/// digits after a `0x`, from -2^63 to 2^64 - 1 (this project's own).
pub(crate) fn number_of_text(text: &str) -> Option<i128>
    ensures { result ≡ number_of_text text.now }
{
    if let Some(digits) = after_minus(text) {
        let number = decimal_up_to(MOST_BELOW_ZERO, digits)?;
        return Some(-i128::from(number));
    }
    let number = match after_hex_sign('x', text) {
        Some(digits) => hex_digits(digits)?,
        None => decimal_up_to(u64::MAX, text)?,
    };
    Some(i128::from(number))
}
