ghost use Rattle.std.specs.Prelude.{◌≡◌, pos, unsigned_abs, ◌≤◌, ◌^◌, ◌*◌, ◌/◌, ◌≤ℤ◌, ◌+ℤ◌, ◌*ℤ◌};
ghost use Rattle.std.specs.Int.{int_min, div_ceil};
ghost use Rattle.psa_number.specs.Units.{units, floor_units, ceil_units};
ghost use Rattle.psa_number.specs.Operations.{IsInUnit, held_to_unit, unit_ends, unit_product_ends, unit_sum_ends, complement_ends};
ghost use Rattle.psa_number.specs.Fraction.{Fraction, Holds, plus, times, held_in_unit, at_most_one, one_minus};

use crate::interval::Interval;
use crate::limits::{MAX_END, MILLION, UNITS};

/// The interval with both ends held to 0 and 1. Some of it has to be within them.
pub fn clamp_unit(a: Interval) -> Interval
    requires low { a.lo ≤ℤ pos units }
    requires high { pos 0 ≤ℤ a.hi }
    ensures exact { result ≡ unit_ends a }
    ensures in_unit { IsInUnit result }
    ensures bracket { (x : Fraction) → Holds a x → Holds result (held_in_unit x) }
{
    Interval {
        lo: held(a.lo),
        hi: held(a.hi),
    }
}

/// The interval of the products of two intervals within 0 and 1, rounded outwards to whole units.
pub fn times_in_unit(a: Interval, b: Interval) -> Interval
    requires left { IsInUnit a }
    requires right { IsInUnit b }
    ensures exact { result ≡ unit_product_ends a b }
    ensures in_unit { IsInUnit result }
    ensures bracket { (x y : Fraction) → Holds a x → Holds b y → Holds result (times x y) }
{
    Interval {
        lo: product_below(a.lo, b.lo),
        hi: product_above(a.hi, b.hi),
    }
}

/// The interval of the sums of two intervals within 0 and 1, each sum held at 1.
pub fn add_in_unit(a: Interval, b: Interval) -> Interval
    requires left { IsInUnit a }
    requires right { IsInUnit b }
    ensures exact { result ≡ unit_sum_ends a b }
    ensures in_unit { IsInUnit result }
    ensures bracket { (x y : Fraction)
        → Holds a x → Holds b y → Holds result (at_most_one (plus x y)) }
{
    Interval {
        lo: sum_at_most_one(a.lo, b.lo),
        hi: sum_at_most_one(a.hi, b.hi),
    }
}

/// The interval of 1 less the numbers of an interval within 0 and 1.
pub fn complement(a: Interval) -> Interval
    requires { IsInUnit a }
    ensures exact { result ≡ complement_ends a }
    ensures in_unit { IsInUnit result }
    ensures bracket { (x : Fraction) → Holds a x → Holds result (one_minus x) }
{
    Interval {
        lo: i128::from(UNITS) - a.hi,
        hi: i128::from(UNITS) - a.lo,
    }
}

/// A number of units held to 0 and 1.
fn held(z: i128) -> i128
    ensures { result ≡ held_to_unit z }
{
    z.min(i128::from(UNITS)).max(0)
}

/// The sum of two ends, held at 1.
fn sum_at_most_one(x: i128, y: i128) -> i128
    requires left { unsigned_abs x ≤ MAX_END }
    requires right { unsigned_abs y ≤ MAX_END }
    ensures { result ≡ int_min (pos units) (x +ℤ y) }
{
    i128::from(UNITS).min(x + y)
}

/// The product of two ends within 0 and 1, rounded down.
fn product_below(x: i128, y: i128) -> i128
    requires left_low { pos 0 ≤ℤ x }
    requires left_high { x ≤ℤ pos units }
    requires right_low { pos 0 ≤ℤ y }
    requires right_high { y ≤ℤ pos units }
    ensures { result ≡ floor_units (x *ℤ y) }
{
    i128::from(floor_of_product(x as u64, y as u64))
}

/// The product of two ends within 0 and 1, rounded up.
fn product_above(x: i128, y: i128) -> i128
    requires left_low { pos 0 ≤ℤ x }
    requires left_high { x ≤ℤ pos units }
    requires right_low { pos 0 ≤ℤ y }
    requires right_high { y ≤ℤ pos units }
    ensures { result ≡ ceil_units (x *ℤ y) }
{
    i128::from(ceil_of_product(x as u64, y as u64))
}

/// The floor of `a * b / UNITS`. The digits of `b` are taken in two halves, so that nothing is wider than 64 bits.
fn floor_of_product(a: u64, b: u64) -> u64
    requires left { a ≤ UNITS }
    requires right { b ≤ UNITS }
    ensures { result ≡ a * b / UNITS }
{
    (a * (b / MILLION) + a * (b % MILLION) / MILLION) / MILLION
}

/// The ceiling of `a * b / UNITS`, in the same two halves: the ceiling of a ceiling is that of the whole.
fn ceil_of_product(a: u64, b: u64) -> u64
    requires left { a ≤ UNITS }
    requires right { b ≤ UNITS }
    ensures { result ≡ div_ceil (a * b) UNITS }
{
    (a * (b / MILLION) + (a * (b % MILLION)).div_ceil(MILLION)).div_ceil(MILLION)
}
