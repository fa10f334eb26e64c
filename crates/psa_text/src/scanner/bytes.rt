ghost use Rattle.std.specs.Prelude.{◌≡◌, ◌+◌, ◌*◌, ◌^◌, ◌<◌, ◌≤◌};
ghost use Rattle.std.specs.Str.{is_utf8};
ghost use Rattle.psa_text.specs.declared.limits.TheConstants.{MAX_REFERENCE_DIGITS};
ghost use Rattle.psa_text.specs.TextBytes as spec;
ghost use Rattle.psa_text.specs.scanner.View.{IsTextOf};

use crate::Text;
use crate::scanner::lexer::TokenError;
use std::alloc::Global;

/// A byte that a name may begin with.
pub fn is_name_start(byte: u8) -> bool
    ensures { result ≡ spec.is_name_start byte }
{
    matches!(byte, b'a'..=b'z' | b'A'..=b'Z' | b'_' | b':' | 128..)
}

/// A byte that a name may go on with.
pub fn is_name_byte(byte: u8) -> bool
    ensures { result ≡ spec.is_name_byte byte }
{
    is_name_start(byte) || matches!(byte, b'0'..=b'9' | b'-' | b'.')
}

/// Space, tab, CR and LF.
pub fn is_blank(byte: u8) -> bool
    ensures { result ≡ spec.is_blank byte }
{
    matches!(byte, b' ' | b'\t' | b'\r' | b'\n')
}

/// The value of a decimal digit.
pub fn decimal_digit(byte: u8) -> Option<u32>
    ensures { spec.IsDigitValue 10 byte result }
{
    match byte {
        b'0'..=b'9' => Some(u32::from(byte - b'0')),
        _ => None,
    }
}

/// The value of a hexadecimal digit.
pub fn hexadecimal_digit(byte: u8) -> Option<u32>
    ensures { spec.IsDigitValue 16 byte result }
{
    match byte {
        b'0'..=b'9' => Some(u32::from(byte - b'0')),
        b'a'..=b'f' => Some(u32::from(byte - b'a') + 10),
        b'A'..=b'F' => Some(u32::from(byte - b'A') + 10),
        _ => None,
    }
}

/// The number of so many digits, with one more digit.
pub fn with_digit(base: u32, number: u32, digits: u8, digit: u32) -> u32
    requires base { base ≤ 16 }
    requires few { digits < MAX_REFERENCE_DIGITS }
    requires number { number < 16 ^ digits }
    requires digit { digit < base }
    ensures value { result ≡ base * number + digit }
    ensures fits { result < 16 ^ (digits + 1) }
{
    let grown = base * number;
    grown + digit
}

/// The bytes without the spaces at both ends.
pub fn trimmed(bytes: &[u8]) -> &[u8]
    ensures { result.now ≡ spec.trimmed bytes.now }
{
    trimmed_end(trimmed_front(bytes))
}

fn trimmed_front(mut bytes: &[u8]) -> &[u8]
    ensures { result.now ≡ spec.trimmed_front bytes.entry.now }
{
    while let [b' ', rest @ ..] = bytes {
        bytes = rest;
    }
    bytes
}

fn trimmed_end(mut bytes: &[u8]) -> &[u8]
    ensures { result.now ≡ spec.trimmed_end bytes.entry.now }
{
    while let [rest @ .., b' '] = bytes {
        bytes = rest;
    }
    bytes
}

/// Whether the bytes are UTF-8.
pub fn is_text(bytes: &[u8]) -> bool
    ensures { result ≡ is_utf8 bytes.now }
{
    match simdutf8::compat::from_utf8(bytes) {
        Ok(_) => true,
        Err(_) => false,
    }
}

/// The text of these bytes. Bad: they aren't UTF-8.
pub fn text_of(alloc: Global, bytes: &[u8]) -> Result<Text, TokenError>
    ensures { IsTextOf bytes.now result }
{
    match simdutf8::compat::from_utf8(bytes) {
        Ok(text) => Ok(Text::from_str(alloc, text)?),
        Err(_) => Err(TokenError::Bad),
    }
}
