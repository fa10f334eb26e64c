ghost use Rattle.std.specs.Prelude.{◌≡◌, ◌≤◌, ◌==◌, ◌∷◌, true, length, count_by, IfSome};
ghost use Rattle.psa_text.specs.declared.limits.TheConstants.{MAX_FILE_BYTES};
ghost use Rattle.psa_text.specs.NamedBytes.{line_feed};
ghost use Rattle.psa_text.specs.TextBytes.{is_blank, is_name_byte, is_quote};
ghost use Rattle.psa_text.specs.scanner.Spans.{IsBehind, IsBehindBlank, IsNameAt, IsValueAt, is_other, is_plain, is_turned};

use crate::limits::{MAX_NAME_BYTES, MAX_VALUE_BYTES};
use crate::scanner::bytes::{is_blank, is_name_byte, is_name_start};
use memchr::memchr;

/// A byte that a value does not hold as it stands, or that does not stand in it.
pub fn is_turned(byte: u8) -> bool
    ensures { result ≡ is_turned byte }
{
    matches!(byte, b'<' | b'&' | b'\t' | b'\n' | b'\r')
}

/// A byte that stands for itself in a value between these quotes.
fn is_plain(quote: u8, byte: u8) -> bool
    ensures { result ≡ is_plain quote byte }
{
    byte != quote && !is_turned(byte)
}

/// The bytes from the first `stop` on; none where there is no `stop`.
pub fn from_first(stop: u8, bytes: &[u8]) -> &[u8]
    ensures { IsBehind (is_other stop) bytes.now result.now }
{
    match memchr(stop, bytes) {
        Some(place) => bytes.split_at(place).1,
        None => &[],
    }
}

/// The bytes behind the blanks at their front.
pub fn behind_blanks(mut bytes: &[u8]) -> &[u8]
    ensures { IsBehind is_blank bytes.entry.now result.now }
{
    while let [byte, rest @ ..] = bytes {
        if !is_blank(*byte) {
            break;
        }
        bytes = rest;
    }
    bytes
}

/// The bytes behind the bytes of a name at their front.
fn behind_name_bytes(mut bytes: &[u8]) -> &[u8]
    ensures { IsBehind is_name_byte bytes.entry.now result.now }
{
    while let [byte, rest @ ..] = bytes {
        if !is_name_byte(*byte) {
            break;
        }
        bytes = rest;
    }
    bytes
}

/// The bytes behind those at their front that stand for themselves in a value.
fn behind_plain_bytes(quote: u8, mut bytes: &[u8]) -> &[u8]
    ensures { IsBehind (is_plain quote) bytes.entry.now result.now }
{
    while let [byte, rest @ ..] = bytes {
        if !is_plain(quote, *byte) {
            break;
        }
        bytes = rest;
    }
    bytes
}

/// The bytes behind the byte, where it is the first.
pub fn behind_byte(byte: u8, bytes: &[u8]) -> Option<&[u8]>
    ensures { IfSome result (λ rest. bytes.now ≡ byte ∷ rest.now) }
{
    match bytes {
        [first, rest @ ..] if *first == byte => Some(rest),
        _ => None,
    }
}

/// The bytes behind the blank that is the first.
pub fn behind_blank(bytes: &[u8]) -> Option<&[u8]>
    ensures { IfSome result (λ rest. IsBehindBlank bytes.now rest.now) }
{
    match bytes {
        [first, rest @ ..] if is_blank(*first) => Some(rest),
        _ => None,
    }
}

/// The quote that is the first byte, and the bytes behind it.
pub fn quote_at(bytes: &[u8]) -> Option<(u8, &[u8])>
    ensures { IfSome result
        (λ found. (bytes.now ≡ found.0 ∷ found.1.now) × (is_quote found.0 ≡ true)) }
{
    match bytes {
        [first, rest @ ..] if *first == b'"' || *first == b'\'' => Some((*first, rest)),
        _ => None,
    }
}

/// The name at the front, of at most [`MAX_NAME_BYTES`], and the bytes behind it.
pub fn name_at(bytes: &[u8]) -> Option<(&[u8], &[u8])>
    ensures { IfSome result (λ found. IsNameAt bytes.now found.0.now found.1.now) }
{
    let [first, further @ ..] = bytes else {
        return None;
    };
    if !is_name_start(*first) {
        return None;
    }
    let rest = behind_name_bytes(further);
    let (name, _) = bytes.split_at(bytes.len() - rest.len());
    if name.len() > MAX_NAME_BYTES {
        return None;
    }
    Some((name, rest))
}

/// The value at the front, of at most [`MAX_VALUE_BYTES`] that stand for themselves, and the bytes
/// behind its quote.
pub fn value_at(quote: u8, bytes: &[u8]) -> Option<(&[u8], &[u8])>
    ensures { IfSome result (λ found. IsValueAt quote bytes.now found.0.now found.1.now) }
{
    let behind = behind_plain_bytes(quote, bytes);
    let rest = behind_byte(quote, behind)?;
    let (value, _) = bytes.split_at(bytes.len() - behind.len());
    if value.len() > MAX_VALUE_BYTES {
        return None;
    }
    Some((value, rest))
}

/// The number of line ends among the bytes.
pub fn line_ends(bytes: &[u8]) -> u32
    requires { length bytes.now ≤ MAX_FILE_BYTES }
    ensures { result ≡ count_by (λ b. b == line_feed) bytes.now }
{
    let mut count = 0;
    for byte in bytes {
        count += u32::from(*byte == b'\n');
    }
    count
}
