ghost use Rattle.std.specs.Prelude.{◌≡◌, ◌≤◌, ◌<◌, ◌+◌, ◌^◌, ◌%◌, ◌∷◌, [], ◌++◌, Ok, length, unsigned_abs};
ghost use Rattle.std.specs.Fmt.{decimal};
ghost use Rattle.psa_number.specs.DecimalText.{decimal_of, text_of_units, scaled_of_units, sign_of, last_digits};

use crate::limits::{MAX_END, UNITS};
use arrayvec::ArrayString;

/// The digits after the point.
const PLACES: u32 = 12;

/// The number of units in decimals: `-` where it is negative, the whole part without leading zeros, a point and 12
/// digits. At most `MAX_END` units in magnitude.
pub fn print_units(value: i128) -> ArrayString<32>
    requires { unsigned_abs value ≤ MAX_END }
    ensures exact { result.bytes ≡ text_of_units value }

    // `read_decimal` gives the number back.
    ensures read_back { decimal_of result.bytes ≡ Ok (scaled_of_units value) }
{
    let magnitude = value.unsigned_abs() as u64;
    let mut text = ArrayString::new();
    text.push_str(sign(value));
    push_whole(&mut text, magnitude / UNITS);
    text.push_str(".");
    push_last_digits(&mut text, magnitude % UNITS, PLACES);
    text
}

/// `-` where `value` is negative.
fn sign(value: i128) -> &'static str
    ensures { result.now ≡ sign_of value }
{
    if value < 0 { "-" } else { "" }
}

/// Appends `number` in decimals, without leading zeros.
fn push_whole(text: &mut ArrayString<32>, number: u64)
    requires few { number < 10 ^ 7 }
    requires room { length text.old.bytes ≤ 2 }
    ensures { text.new.bytes ≡ text.old.bytes ++ decimal number }
{
    if number >= 10 {
        push_whole(text, number / 10);
    }
    push_digit(text, number);
}

/// Appends the last `places` digits of `number`.
fn push_last_digits(text: &mut ArrayString<32>, number: u64, places: u32)
    requires few { places ≤ 12 }
    requires room { length text.old.bytes ≤ 10 }
    ensures { text.new.bytes ≡ text.old.bytes ++ last_digits places number }
{
    if places > 0 {
        push_last_digits(text, number / 10, places - 1);
        push_digit(text, number);
    }
}

/// Appends the last digit of `number`.
fn push_digit(text: &mut ArrayString<32>, number: u64)
    requires { length text.old.bytes ≤ 22 }
    ensures { text.new.bytes ≡ text.old.bytes ++ (48 + number % 10) ∷ [] }
{
    text.push(char::from(b'0' + (number % 10) as u8));
}
