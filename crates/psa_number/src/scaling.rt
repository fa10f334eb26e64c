ghost use Rattle.std.specs.Prelude.{◌≡◌, ◌<◌, ◌≤◌, ◌^◌, ◌<ℤ◌, ◌≤ℤ◌, pos, negsuc, min, unsigned_abs};
ghost use Rattle.psa_number.specs.Operations.{decimal_ends, magnitude_below, magnitude_above};
ghost use Rattle.psa_number.specs.Scaled.{IsWithin};
ghost use Rattle.psa_number.specs.Fraction.{Holds, fraction_of};

use crate::decimal::Decimal;
use crate::interval::Interval;
use crate::limits::{MAX_DIGITS, MAX_END};

/// A unit is this power of ten, inverted.
const UNIT_EXPONENT: i16 = 12;

/// The least interval of whole units that holds the decimal.
pub fn interval_of(d: Decimal) -> Interval
    ensures exact { result ≡ decimal_ends d }
    ensures bracket { Holds result (fraction_of d) }
{
    let scale = d.exponent + UNIT_EXPONENT;
    let below = units_below(d.digits, scale);
    let above = units_above(d.digits, scale);
    if d.negative {
        Interval {
            lo: -above,
            hi: -below,
        }
    } else {
        Interval {
            lo: below,
            hi: above,
        }
    }
}

/// The floor of `digits * 10^scale`.
fn units_below(digits: u128, scale: i16) -> i128
    requires few { digits < 10 ^ MAX_DIGITS }
    requires within { IsWithin MAX_END digits scale }
    ensures { result ≡ pos (magnitude_below digits scale) }
{
    if scale < 0 {
        (digits / divisor_of(scale)) as i128
    } else {
        scaled_up(digits, scale) as i128
    }
}

/// The ceiling of `digits * 10^scale`.
fn units_above(digits: u128, scale: i16) -> i128
    requires few { digits < 10 ^ MAX_DIGITS }
    requires within { IsWithin MAX_END digits scale }
    ensures { result ≡ pos (magnitude_above digits scale) }
{
    if scale < 0 {
        digits.div_ceil(divisor_of(scale)) as i128
    } else {
        scaled_up(digits, scale) as i128
    }
}

/// What to divide by for a scale below 0. Past as many places as a decimal has digits the quotients stay the same.
fn divisor_of(scale: i16) -> u128
    requires { scale <ℤ pos 0 }
    ensures value { result ≡ 10 ^ min (unsigned_abs scale) MAX_DIGITS }
    ensures some { 0 < result }
{
    10u128.pow(u32::from(scale.unsigned_abs().min(MAX_DIGITS as u16)))
}

/// `digits * 10^scale` for a scale of 0 or more.
fn scaled_up(digits: u128, scale: i16) -> u128
    requires up { pos 0 ≤ℤ scale }
    requires within { IsWithin MAX_END digits scale }
    ensures value { result ≡ magnitude_below digits scale }
    ensures same { result ≡ magnitude_above digits scale }
    ensures small { result ≤ MAX_END }
{
    if digits == 0 {
        return 0;
    }
    digits * 10u128.pow(u32::from(scale.unsigned_abs()))
}
