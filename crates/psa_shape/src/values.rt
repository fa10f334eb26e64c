//! What is wrong with the value of an attribute.
ghost use Rattle.std.specs.Prelude.{◌≡◌, ◌+◌, ◌<◌, ◌≤◌, drop, length, true, Some, None};
ghost use Rattle.std.specs.Prelude.{if◌then◌else◌};
ghost use Rattle.std.specs.List.{list_all, position};
ghost use Rattle.std.specs.Char.{is_ascii_digit};
ghost use Rattle.std.specs.Str.Parse.{digits_value, without_leading_sign};
ghost use Rattle.psa_elements.specs.ElementTable as definition;
ghost use Rattle.psa_shape.specs.TableRules.{seen_allowed, is_dot};

use crate::rules::Allowed;
use psa_elements::{MAX_DIGITS, MAX_NAME};
use psa_model::FaultKind;
use psa_number::read_decimal;

/// What is wrong with a value, or nothing.
pub fn value_fault(allowed: Allowed, value: &str) -> Option<FaultKind>
    ensures { result ≡ definition.value_fault (seen_allowed allowed) value.now }
{
    let bytes = value.as_bytes();
    match allowed {
        Allowed::AnyText => None,
        Allowed::Name => unless(is_name(bytes), FaultKind::BadName),
        Allowed::Reference => unless(is_reference(bytes), FaultKind::BadName),
        Allowed::OneOf(words) => unless(words.has(value), FaultKind::BadAttribute),
        Allowed::Digits => unless(are_few_digits(bytes), FaultKind::BadNumber),
        Allowed::Decimal => unless(is_decimal(bytes), FaultKind::BadNumber),
        Allowed::Whole => unless(is_whole(bytes), FaultKind::BadNumber),
    }
}

/// The fault of a value that does not pass its test.
fn unless(passes: bool, kind: FaultKind) -> Option<FaultKind>
    ensures { result ≡ (if passes then None else Some kind) }
{
    if passes { None } else { Some(kind) }
}

/// Whether a name has this byte: an ASCII letter, a digit, `_`, `-` or a byte of 128 or more.
fn is_name_byte(byte: u8) -> bool
    ensures { result ≡ definition.is_name_byte byte }
{
    byte.is_ascii_alphanumeric() || byte == b'_' || byte == b'-' || !byte.is_ascii()
}

/// Whether each byte is one of a name.
fn are_name_bytes(text: &[u8]) -> bool
    ensures { result ≡ list_all definition.is_name_byte text.now }
{
    text.iter().all(|byte| is_name_byte(*byte))
}

/// Whether the text is a name, of at most `MAX_NAME` bytes.
fn is_name(text: &[u8]) -> bool
    ensures { result ≡ definition.is_name text.now }
{
    1 <= text.len() && text.len() <= MAX_NAME && are_name_bytes(text)
}

/// The place of the first dot.
fn first_dot(text: &[u8]) -> Option<usize>
    ensures { result ≡ position is_dot text.now }
{
    text.iter().position(|byte| *byte == b'.')
}

/// What stands behind the byte at a place.
fn behind(text: &[u8], place: usize) -> &[u8]
    requires { place < length text.now }
    ensures { result.now ≡ drop (place + 1) text.now }
{
    &text[place + 1..]
}

/// Whether the text is a name, or names joined by single dots.
fn is_reference(text: &[u8]) -> bool
    ensures { result ≡ definition.is_reference text.now }
{
    let mut rest = text;
    while let Some(place) = first_dot(rest) {
        if !is_name(&rest[..place]) {
            return false;
        }
        rest = behind(rest, place);
    }
    is_name(rest)
}

/// Whether each byte is a digit.
fn are_digits(text: &[u8]) -> bool
    ensures { result ≡ list_all is_ascii_digit text.now }
{
    text.iter().all(|byte| byte.is_ascii_digit())
}

/// Whether the text is a number by its digits, of which there are at most `MAX_DIGITS`.
fn are_few_digits(text: &[u8]) -> bool
    ensures { result ≡ definition.are_digits text.now }
{
    1 <= text.len() && text.len() <= MAX_DIGITS && are_digits(text)
}

/// Whether the text is a decimal.
fn is_decimal(text: &[u8]) -> bool
    ensures { result ≡ definition.is_decimal text.now }
{
    read_decimal(text).is_ok()
}

/// The text without a sign in front.
fn without_sign(text: &[u8]) -> &[u8]
    ensures { result.now ≡ without_leading_sign text.now }
{
    if !text.is_empty() && (text[0] == b'-' || text[0] == b'+') {
        &text[1..]
    } else {
        text
    }
}

/// Whether the text is a decimal without point and exponent.
fn is_whole(text: &[u8]) -> bool
    ensures { result ≡ definition.is_whole text.now }
{
    is_decimal(text) && are_digits(without_sign(text))
}

/// The number that the digits spell.
pub fn number_of(digits: &[u8]) -> u32
    requires only_digits { list_all is_ascii_digit digits.now ≡ true }
    requires few { length digits.now ≤ MAX_DIGITS }
    ensures { result ≡ digits_value 10 digits.now }
{
    let mut number = 0;
    for &digit in digits {
        number = number * 10 + u32::from(digit - b'0');
    }
    number
}
