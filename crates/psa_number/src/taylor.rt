ghost use Rattle.std.specs.Prelude.{◌≡◌, ℕ, IfOk, ◌≤◌, ◌*◌, ◌^◌};
ghost use Rattle.psa_number.specs.Units.{units};
ghost use Rattle.psa_number.specs.Exponential.{raised, lower_sum, closed_sum, lower_end_at, upper_end_at};
ghost use Rattle.psa_number.specs.Operations.{exponential_of};
ghost use Rattle.psa_number.specs.Fraction.{Fraction, Holds, exponential_at};

use crate::fault::NumberFault;
use crate::interval::Interval;
use crate::limits::{MAX_END, MAX_PLACE, MAX_TERM, UNITS};

/// The number 1 in units.
const UNIT: u128 = UNITS as u128;

/// The exponential distribution 1 - exp(-rate * time) of the Open-PSA format, bracketed for every rate and time
/// of the two intervals, each first raised to 0 where it is negative. `Negative` exactly where the rate or the
/// time is below 0 everywhere.
pub fn exponential(rate: Interval, time: Interval) -> Result<Interval, NumberFault>
    ensures exact { result ≡ exponential_of rate time }
    ensures bracket { IfOk result (λ r. (n : ℕ) → MAX_TERM ≤ n → (x y : Fraction)
        → Holds rate x → Holds time y → Holds r (exponential_at n x y)) }
{
    if rate.hi < 0 || time.hi < 0 {
        return Err(NumberFault::Negative);
    }
    let lo = lower_end_from(raise(rate.lo) * raise(time.lo));
    let hi = upper_end_from(raise(rate.hi) * raise(time.hi));
    Ok(Interval {
        lo: lo as i128,
        hi: hi as i128,
    })
}

/// `z`, or 0 where it is negative.
fn raise(z: i128) -> u128
    ensures { result ≡ raised z }
{
    if z < 0 { 0 } else { z as u128 }
}

/// The lower end of the exponential where the lower ends of rate and time have the product `low`.
fn lower_end_from(low: u128) -> u128
    requires { low ≤ MAX_END * MAX_END }
    ensures { result ≡ lower_end_at low }
{
    let place = (low / UNIT).min(MAX_PLACE);
    UNIT - (UNIT * UNIT).div_ceil(rounded_down_sum(place))
}

/// The upper end of the exponential where the upper ends of rate and time have the product `high`.
fn upper_end_from(high: u128) -> u128
    requires { high ≤ MAX_END * MAX_END }
    ensures { result ≡ upper_end_at high }
{
    if MAX_PLACE * UNIT < high {
        return UNIT;
    }
    let place = high.div_ceil(UNIT).min(MAX_PLACE);
    UNIT - UNIT * UNIT / rounded_up_sum(place)
}

/// The Taylor sum at `place` units, each of its 161 terms rounded down.
fn rounded_down_sum(place: u128) -> u128
    requires { place ≤ MAX_PLACE }
    ensures exact { result ≡ lower_sum place MAX_TERM }
    ensures some { units ≤ result }
{
    let mut term = UNIT;
    let mut sum = UNIT;
    for k in 0..MAX_TERM {
        term = term * place / ((u128::from(k) + 1) * UNIT);
        sum += term;
    }
    sum
}

/// The Taylor sum at `place` units, each term rounded up, to the first term that may end it, which is added
/// once more for all later ones.
fn rounded_up_sum(place: u128) -> u128
    requires { place ≤ MAX_PLACE }
    ensures exact { result ≡ closed_sum place }
    ensures some { units ≤ result }
{
    let mut term = UNIT;
    let mut sum = UNIT;
    for k in 0..MAX_TERM {
        let divisor = (u128::from(k) + 1) * UNIT;
        if 2 * place <= divisor && term <= 1 {
            return sum + term;
        }
        term = (term * place).div_ceil(divisor);
        sum += term;
    }
    sum + term
}
