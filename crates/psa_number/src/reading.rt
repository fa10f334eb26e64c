ghost use Rattle.std.specs.Prelude.{◌≡◌, ◌≤◌, ◌<◌, ◌+◌, ◌*◌, ◌^◌, ◌≤ℤ◌, pos, negsuc, true, length, drop};
ghost use Rattle.std.specs.List.{position, position_or_len};
ghost use Rattle.std.specs.Str.Parse.{starts_with_minus as begins_with_minus, without_leading_sign, digits_value_after};
ghost use Rattle.psa_number.specs.Scaled.{least_exponent};
ghost use Rattle.psa_number.specs.DecimalText.{decimal_of, exponent_of, exponent_part as exponent_part_of, number_of, scaled_of, is_within as is_within_limit, are_digits as all_digits, is_mark, is_point};

use crate::decimal::Decimal;
use crate::fault::NumberFault;
use crate::limits::{MAX_DECIMAL, MAX_DIGITS, MAX_EXPONENT, MAX_EXPONENT_DIGITS};

/// The decimal number that `text` spells: an optional sign, digits with at most one point among or around them, and
/// optionally `e` or `E`, a sign and one to four digits.
///
/// `NotDecimal` exactly where the text is spelled otherwise. Else `TooManyDigits` exactly where more than
/// `MAX_DIGITS` digits stand before the exponent, or the exponent is past `MAX_EXPONENT` in magnitude. Else `TooLarge`
/// exactly where the magnitude is past `MAX_DECIMAL`.
pub fn read_decimal(text: &[u8]) -> Result<Decimal, NumberFault>
    ensures { result ≡ decimal_of text.now }
{
    let negative = starts_with_minus(text);
    let unsigned = without_sign(text);
    let mark = place_of_mark(unsigned);
    let mantissa = &unsigned[..mark];
    let point = place_of_point(mantissa);
    let whole = &mantissa[..point];
    let fraction = after(mantissa, point);
    if !are_digits(whole) || !are_digits(fraction) || whole.len() + fraction.len() == 0 {
        return Err(NumberFault::NotDecimal);
    }
    let Some(exponent) = exponent_part(unsigned, mark) else {
        return Err(NumberFault::NotDecimal);
    };
    number(negative, whole, fraction, exponent)
}

/// The decimal of these digits before and after the point, and this exponent.
fn number(
    negative: bool,
    whole: &[u8],
    fraction: &[u8],
    exponent: i16,
) -> Result<Decimal, NumberFault>
    requires whole_digits { all_digits whole.now ≡ true }
    requires fraction_digits { all_digits fraction.now ≡ true }
    ensures { result ≡ number_of negative whole.now fraction.now exponent }
{
    if whole.len() > MAX_DIGITS || fraction.len() > MAX_DIGITS - whole.len() {
        return Err(NumberFault::TooManyDigits);
    }
    if exponent < -MAX_EXPONENT || MAX_EXPONENT < exponent {
        return Err(NumberFault::TooManyDigits);
    }
    let digits = append_digits(append_digits(0, whole), fraction);
    scaled(negative, digits, exponent - fraction.len() as i16)
}

/// Whether the text begins with `-`.
fn starts_with_minus(text: &[u8]) -> bool
    ensures { result ≡ begins_with_minus text.now }
{
    !text.is_empty() && text[0] == b'-'
}

/// The text without a sign in front.
fn without_sign(text: &[u8]) -> &[u8]
    ensures { result.now ≡ without_leading_sign text.now }
{
    if !text.is_empty() && (text[0] == b'-' || text[0] == b'+') {
        &text[1..]
    } else {
        text
    }
}

/// The index of the first `e` or `E`, or the length.
fn place_of_mark(text: &[u8]) -> usize
    ensures place { result ≡ position_or_len is_mark text.now }
    ensures within { result ≤ length text.now }
{
    first_mark(text).unwrap_or(text.len())
}

fn first_mark(text: &[u8]) -> Option<usize>
    ensures { result ≡ position is_mark text.now }
{
    text.iter().position(|&b| b == b'e' || b == b'E')
}

/// The index of the first point, or the length.
fn place_of_point(text: &[u8]) -> usize
    ensures place { result ≡ position_or_len is_point text.now }
    ensures within { result ≤ length text.now }
{
    first_point(text).unwrap_or(text.len())
}

fn first_point(text: &[u8]) -> Option<usize>
    ensures { result ≡ position is_point text.now }
{
    text.iter().position(|&b| b == b'.')
}

/// What stands after the byte at `place`.
fn after(text: &[u8], place: usize) -> &[u8]
    ensures { result.now ≡ drop (place + 1) text.now }
{
    if place < text.len() {
        &text[place + 1..]
    } else {
        &[]
    }
}

/// Whether each byte is a digit.
fn are_digits(text: &[u8]) -> bool
    ensures { result ≡ all_digits text.now }
{
    text.iter().all(|b| b.is_ascii_digit())
}

/// The number that the digits write when they follow those of `start`.
fn append_digits(start: u128, digits: &[u8]) -> u128
    requires only_digits { all_digits digits.now ≡ true }
    requires room { (start + 1) * 10 ^ length digits.now ≤ 10 ^ MAX_DIGITS }
    ensures exact { result ≡ digits_value_after 10 start digits.now }
    ensures below { result + 1 ≤ (start + 1) * 10 ^ length digits.now }
{
    let mut value = start;
    for &digit in digits {
        value = value * 10 + u128::from(digit - b'0');
    }
    value
}

/// The exponent that the text after its mark spells, if it spells one.
fn read_exponent(text: &[u8]) -> Option<i16>
    ensures { result ≡ exponent_of text.now }
{
    let digits = without_sign(text);
    if digits.is_empty() || digits.len() > MAX_EXPONENT_DIGITS || !are_digits(digits) {
        return None;
    }
    let magnitude = append_digits(0, digits) as i16;
    Some(if starts_with_minus(text) {
        -magnitude
    } else {
        magnitude
    })
}

/// The exponent of an unsigned number whose mark stands at `mark`: 0 where it has none.
fn exponent_part(text: &[u8], mark: usize) -> Option<i16>
    requires { mark ≡ position_or_len is_mark text.now }
    ensures { result ≡ exponent_part_of text.now }
{
    if mark < text.len() {
        read_exponent(&text[mark + 1..])
    } else {
        Some(0)
    }
}

/// The decimal with these parts, where its magnitude is at most `MAX_DECIMAL`.
fn scaled(negative: bool, digits: u128, exponent: i16) -> Result<Decimal, NumberFault>
    requires few { digits < 10 ^ MAX_DIGITS }
    requires low { least_exponent ≤ℤ exponent }
    requires high { exponent ≤ℤ MAX_EXPONENT }
    ensures { result ≡ scaled_of negative digits exponent }
{
    if is_within(digits, exponent) {
        Ok(Decimal {
            negative,
            digits,
            exponent,
        })
    } else {
        Err(NumberFault::TooLarge)
    }
}

/// Whether `digits * 10^exponent` is at most `MAX_DECIMAL`, which is 10^6.
fn is_within(digits: u128, exponent: i16) -> bool
    requires few { digits < 10 ^ MAX_DIGITS }
    requires low { least_exponent ≤ℤ exponent }
    requires high { exponent ≤ℤ MAX_EXPONENT }
    ensures { result ≡ is_within_limit MAX_DECIMAL digits exponent }
{
    if exponent > 6 {
        digits == 0
    } else if exponent < -29 {
        true
    } else {
        digits <= 10u128.pow((6 - exponent) as u32)
    }
}
