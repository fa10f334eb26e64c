ghost use Rattle.std.specs.Prelude.{◌≡◌, ◌≤ℤ◌, ◌+◌, ◌/◌, ◌%◌, ◌++◌, IsTrue, codes, pos};
ghost use Rattle.psa_number.specs.DecimalText.{text_of_units};
ghost use Rattle.psa_number.specs.Units.{units};

use psa_number::UNITS;

/// 10^6: the root of `UNITS`.
const MILLION: u64 = 1_000_000;

/// How many bytes two numbers of units within 0 and 1 have in decimals, each behind a space: a digit, a point and
/// 12 digits.
const ENDS_LENGTH: usize = 30;

/// Whether a number of units is within 0 and 1.
pub(crate) fn is_in_unit(value: i128) -> bool
    ensures low { IsTrue result → pos 0 ≤ℤ value }
    ensures high { IsTrue result → value ≤ℤ pos units }
{
    0 <= value && value <= i128::from(UNITS)
}

/// Two numbers of units within 0 and 1 in decimals, as `print_units` gives each, behind a space each. The digits are
/// taken in pairs.
pub(crate) fn spaced_units(lo: i128, hi: i128) -> [u8; ENDS_LENGTH]
    requires lo_low { pos 0 ≤ℤ lo }
    requires lo_high { lo ≤ℤ pos units }
    requires hi_low { pos 0 ≤ℤ hi }
    requires hi_high { hi ≤ℤ pos units }
    ensures { result ≡ codes " " ++ (text_of_units lo ++ codes " " ++ text_of_units hi) }
{
    let (low, high) = (lo as u64, hi as u64);
    let (low_front, low_back) = (low % UNITS / MILLION, low % MILLION);
    let (high_front, high_back) = (high % UNITS / MILLION, high % MILLION);
    [
        b' ',
        ones(low / UNITS),
        b'.',
        tens(low_front / 10_000),
        ones(low_front / 10_000),
        tens(low_front / 100),
        ones(low_front / 100),
        tens(low_front),
        ones(low_front),
        tens(low_back / 10_000),
        ones(low_back / 10_000),
        tens(low_back / 100),
        ones(low_back / 100),
        tens(low_back),
        ones(low_back),
        b' ',
        ones(high / UNITS),
        b'.',
        tens(high_front / 10_000),
        ones(high_front / 10_000),
        tens(high_front / 100),
        ones(high_front / 100),
        tens(high_front),
        ones(high_front),
        tens(high_back / 10_000),
        ones(high_back / 10_000),
        tens(high_back / 100),
        ones(high_back / 100),
        tens(high_back),
        ones(high_back),
    ]
}

/// The last digit but one of a number. It is taken of the last two, as the last is, so that one division serves both.
fn tens(number: u64) -> u8
    ensures { result ≡ 48 + number / 10 % 10 }
{
    b'0' + (number % 100 / 10) as u8
}

/// The last digit of a number.
fn ones(number: u64) -> u8
    ensures { result ≡ 48 + number % 10 }
{
    b'0' + (number % 100 % 10) as u8
}
