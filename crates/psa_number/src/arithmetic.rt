ghost use Rattle.std.specs.Prelude.{◌≡◌, ◌≢◌, ℕ, false, pos, neg_ℤ, unsigned_abs, IfOk, ◌≤◌, ◌<◌, ◌^◌, ◌*ℤ◌, ◌≤ℤ◌, ◌*◌};
ghost use Rattle.psa_number.specs.Units.{floor_units, ceil_units, least, greatest};
ghost use Rattle.psa_number.specs.Ends.{Ends};
ghost use Rattle.psa_number.specs.Operations.{limited as limited_ends, negative_ends, sum_ends, difference_ends, product_ends, has_zero, quotient_ends, quotient_of, quotient_below, quotient_above};
ghost use Rattle.psa_number.specs.Fraction.{Fraction, Holds, minus, plus, difference, times, quotient};

use crate::fault::NumberFault;
use crate::interval::Interval;
use crate::limits::{MAX_END, UNITS};

/// The interval of the negated numbers.
pub fn neg(a: Interval) -> Interval
    ensures exact { result ≡ negative_ends a }
    ensures bracket { (x : Fraction) → Holds a x → Holds result (minus x) }
{
    Interval {
        lo: -a.hi,
        hi: -a.lo,
    }
}

/// The interval of the sums. `TooLarge` exactly where an end is past `MAX_END` units in magnitude.
pub fn add(a: Interval, b: Interval) -> Result<Interval, NumberFault>
    ensures exact { result ≡ limited_ends (sum_ends a b) }
    ensures bracket { IfOk result (λ r. (x y : Fraction)
        → Holds a x → Holds b y → Holds r (plus x y)) }
{
    limited(a.lo + b.lo, a.hi + b.hi)
}

/// The interval of the differences. `TooLarge` exactly where an end is past `MAX_END` units in magnitude.
pub fn sub(a: Interval, b: Interval) -> Result<Interval, NumberFault>
    ensures exact { result ≡ limited_ends (difference_ends a b) }
    ensures bracket { IfOk result (λ r. (x y : Fraction)
        → Holds a x → Holds b y → Holds r (difference x y)) }
{
    limited(a.lo - b.hi, a.hi - b.lo)
}

/// The interval of the products, rounded outwards to whole units. `TooLarge` exactly where an end is past `MAX_END`
/// units in magnitude.
pub fn mul(a: Interval, b: Interval) -> Result<Interval, NumberFault>
    ensures exact { result ≡ limited_ends (product_ends a b) }
    ensures bracket { IfOk result (λ r. (x y : Fraction)
        → Holds a x → Holds b y → Holds r (times x y)) }
{
    let low_low = product(a.lo, b.lo);
    let low_high = product(a.lo, b.hi);
    let high_low = product(a.hi, b.lo);
    let high_high = product(a.hi, b.hi);
    let lo = floor_of(least_of(low_low, low_high, high_low, high_high));
    let hi = ceil_of(greatest_of(low_low, low_high, high_low, high_high));
    limited(lo, hi)
}

/// The interval of the quotients, rounded outwards to whole units. `ZeroDivisor` exactly where 0 is in `b`;
/// else `TooLarge` exactly where an end is past `MAX_END` units in magnitude.
pub fn div(a: Interval, b: Interval) -> Result<Interval, NumberFault>
    ensures exact { result ≡ quotient_of a b }
    ensures bracket { IfOk result (λ r. (x y : Fraction)
        → Holds a x → Holds b y → Holds r (quotient x y)) }
{
    if b.lo <= 0 && 0 <= b.hi {
        return Err(NumberFault::ZeroDivisor);
    }
    limited(least_quotient(a, b), greatest_quotient(a, b))
}

/// The floor of the least quotient of an end of `a` by an end of `b`, in units.
fn least_quotient(a: Interval, b: Interval) -> i128
    requires { has_zero b ≡ false }
    ensures { result ≡ (quotient_ends a b).lo }
{
    least_of(
        quotient_floor(a.lo, b.lo),
        quotient_floor(a.lo, b.hi),
        quotient_floor(a.hi, b.lo),
        quotient_floor(a.hi, b.hi),
    )
}

/// The ceiling of the greatest quotient of an end of `a` by an end of `b`, in units.
fn greatest_quotient(a: Interval, b: Interval) -> i128
    requires { has_zero b ≡ false }
    ensures { result ≡ (quotient_ends a b).hi }
{
    greatest_of(
        quotient_ceil(a.lo, b.lo),
        quotient_ceil(a.lo, b.hi),
        quotient_ceil(a.hi, b.lo),
        quotient_ceil(a.hi, b.hi),
    )
}

/// The interval from `lo` to `hi` where it is within the limit.
fn limited(lo: i128, hi: i128) -> Result<Interval, NumberFault>
    requires { lo ≤ℤ hi }
    ensures { result ≡ limited_ends (record { lo = lo; hi = hi }) }
{
    if lo.unsigned_abs() <= MAX_END && hi.unsigned_abs() <= MAX_END {
        Ok(Interval { lo, hi })
    } else {
        Err(NumberFault::TooLarge)
    }
}

/// The product of two ends, in units of 10^-24.
fn product(x: i128, y: i128) -> i128
    requires left { unsigned_abs x ≤ MAX_END }
    requires right { unsigned_abs y ≤ MAX_END }
    ensures exact { result ≡ x *ℤ y }
    ensures small { unsigned_abs result ≤ MAX_END * MAX_END }
{
    x * y
}

fn least_of(a: i128, b: i128, c: i128, d: i128) -> i128
    ensures { result ≡ least a b c d }
{
    a.min(b).min(c.min(d))
}

fn greatest_of(a: i128, b: i128, c: i128, d: i128) -> i128
    ensures { result ≡ greatest a b c d }
{
    a.max(b).max(c.max(d))
}

/// The floor of `z / UNITS`.
fn floor_of(z: i128) -> i128
    ensures { result ≡ floor_units z }
{
    z.div_euclid(i128::from(UNITS))
}

/// The ceiling of `z / UNITS`.
fn ceil_of(z: i128) -> i128
    requires { unsigned_abs z ≤ MAX_END * MAX_END }
    ensures { result ≡ ceil_units z }
{
    -(-z).div_euclid(i128::from(UNITS))
}

/// The floor of the quotient of two ends, in units.
fn quotient_floor(x: i128, y: i128) -> i128
    requires dividend { unsigned_abs x ≤ MAX_END }
    requires divisor { unsigned_abs y ≤ MAX_END }
    requires nonzero { y ≢ pos 0 }
    ensures { result ≡ quotient_below x y }
{
    let dividend = x * i128::from(UNITS);
    if y < 0 {
        (-dividend).div_euclid(-y)
    } else {
        dividend.div_euclid(y)
    }
}

/// The ceiling of the quotient of two ends, in units.
fn quotient_ceil(x: i128, y: i128) -> i128
    requires dividend { unsigned_abs x ≤ MAX_END }
    requires divisor { unsigned_abs y ≤ MAX_END }
    requires nonzero { y ≢ pos 0 }
    ensures { result ≡ quotient_above x y }
{
    -quotient_floor(-x, y)
}
