//! Texts that are numerals of a type.

ghost use Rattle.std.specs.Prelude.{◌≡◌, ◌<◌, ◌≤◌, ◌-◌, ◌^◌, ◌&&◌, ◌||◌, ℕ, [], ◌∷◌, None, Some, option_map, if◌then◌else◌, length, nat_le, take, drop, codes};
ghost use Rattle.std.specs.Char.{is_ascii_digit, is_ascii_hexdigit};
ghost use Rattle.std.specs.List.{list_all};
ghost use Rattle.std.specs.Str.{bytes_eq};
ghost use Rattle.std.specs.Str.Parse.{AllDigits, digits_value};
ghost use Rattle.kc_statement.specs.Numerals.{up_to, digits_up_to, hex_digits, int_numeral, hex_numeral, numeral_in};
ghost use Rattle.kc_statement.specs.Zeros.{zeros_len};

use crate::symbol_type::SymbolType;

/// The greatest number after a `-`.
const MOST_BELOW_ZERO: u64 = 1 << 63;

/// Whether a text is one or more decimal digits.
fn is_decimal(text: &str) -> bool
    ensures { result ≡ (list_all is_ascii_digit text.now && nat_le 1 (length text.now)) }
{
    let are_digits = text.as_bytes().iter().all(|b| b.is_ascii_digit());
    are_digits && text.len() >= 1
}

/// Whether a text is one or more hex digits.
fn is_hex(text: &str) -> bool
    ensures { result ≡ (list_all is_ascii_hexdigit text.now && nat_le 1 (length text.now)) }
{
    let are_digits = text.as_bytes().iter().all(|b| b.is_ascii_hexdigit());
    are_digits && text.len() >= 1
}

/// How many zeros are at the front of digits.
fn zeros_len(digits: &str) -> usize
    ensures { result ≡ zeros_len digits.now }
{
    match digits.as_bytes().iter().position(|byte| *byte != b'0') {
        Some(len) => len,
        None => digits.len(),
    }
}

/// Digits without the zeros at their front, which may be many: `from_str_radix` takes longer for each of them.
fn without_zeros(digits: &str) -> &str
    ensures value { (radix : ℕ) → digits_value radix result.now ≡ digits_value radix digits.now }
    ensures digits { (radix : ℕ) → AllDigits radix digits.now → AllDigits radix result.now }
{
    digits.get(zeros_len(digits)..).unwrap_or(digits)
}

/// The number that digits of a radix spell, 0 for none of them, and no number past 64 bits.
fn number_of(digits: &str, radix: u32) -> Option<u64>
    requires digits { AllDigits radix digits.now }
    requires radix { (2 ≤ radix) × (radix ≤ 36) }
    ensures { result ≡ up_to (2 ^ 64 - 1) (digits_value radix digits.now) }
{
    let digits = without_zeros(digits);
    if digits.is_empty() {
        return Some(0);
    }
    u64::from_str_radix(digits, radix).ok()
}

/// The number that one or more decimal digits spell, none past 64 bits.
fn decimal(text: &str) -> Option<u64>
    ensures { result ≡ digits_up_to (2 ^ 64 - 1) text.now }
{
    if is_decimal(text) {
        number_of(text, 10)
    } else {
        None
    }
}

/// The number that one or more decimal digits spell, none past a bound (this project's own).
pub fn digits_up_to(bound: u64, text: &str) -> Option<u64>
    ensures { result ≡ digits_up_to bound text.now }
{
    let number = decimal(text)?;
    if number > bound {
        return None;
    }
    Some(number)
}

/// The number that one or more hex digits spell, none past 64 bits (this project's own).
pub fn hex_digits(text: &str) -> Option<u64>
    ensures { result ≡ hex_digits text.now }
{
    if is_hex(text) {
        number_of(text, 16)
    } else {
        None
    }
}

/// What follows a `-`, if there is one.
pub fn after_minus(text: &str) -> Option<&str>
    ensures { option_map (λ s. s.now) result
        ≡ (if bytes_eq (take 1 text.now) (codes "-") then Some (drop 1 text.now) else None) }
{
    text.strip_prefix('-')
}

/// The number of a numeral of type int: decimal digits, perhaps after a `-`, from -2^63 to 2^63 - 1.
fn int_numeral(text: &str) -> Option<i128>
    ensures { result ≡ int_numeral text.now }
{
    match after_minus(text) {
        Some(digits) => {
            let number = digits_up_to(MOST_BELOW_ZERO, digits)?;
            Some(-i128::from(number))
        }
        None => {
            let number = digits_up_to(MOST_BELOW_ZERO - 1, text)?;
            Some(i128::from(number))
        }
    }
}

/// What follows a `0` and a letter, if they are there.
pub fn after_hex_sign(letter: char, text: &str) -> Option<&str>
    requires { letter < 128 }
    ensures { option_map (λ s. s.now) result
        ≡ (if bytes_eq (take 2 text.now) (48 ∷ letter ∷ []) then Some (drop 2 text.now) else None) }
{
    text.strip_prefix('0')?.strip_prefix(letter)
}

/// A text without a `0x` or a `0X` in front.
fn without_hex_sign(text: &str) -> &str
    ensures { result.now ≡ (if bytes_eq (take 2 text.now) (codes "0x") || bytes_eq (take 2 text.now) (codes "0X")
        then drop 2 text.now else text.now) }
{
    if let Some(digits) = after_hex_sign('x', text) {
        return digits;
    }
    match after_hex_sign('X', text) {
        Some(digits) => digits,
        None => text,
    }
}

/// The number of a numeral of type hex: hex digits up to 2^64 - 1, perhaps after a `0x` or a `0X`.
fn hex_numeral(text: &str) -> Option<i128>
    ensures { result ≡ hex_numeral text.now }
{
    let number = hex_digits(without_hex_sign(text))?;
    Some(i128::from(number))
}

/// The number of a text by the type of its symbol, int or hex: none where the text is no numeral of the type, and none
/// for the other types (this project's own).
pub fn numeral(kind: SymbolType, text: &str) -> Option<i128>
    ensures { result ≡ numeral_in kind text.now }
{
    match kind {
        SymbolType::Int => int_numeral(text),
        SymbolType::Hex => hex_numeral(text),
        SymbolType::Bool | SymbolType::Tristate | SymbolType::String => None,
    }
}
