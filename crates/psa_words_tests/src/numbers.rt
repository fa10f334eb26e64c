ghost use Rattle.std.specs.Bool.{OnTrue};
ghost use Rattle.psa_number.specs.Operations.{IsInUnit};

use crate::lines::{put, put_number};
use crate::words::put_decimal;
use psa_number::{
    Interval, MAX_END, NumberFault, UNITS, add, add_in_unit, clamp_unit, complement, div,
    exponential, interval_of, mul, neg, print_units, read_decimal, sub, times_in_unit,
};

fn put_fault(out: &mut String, fault: NumberFault) {
    put(
        out,
        match fault {
            NumberFault::NotDecimal => "not a decimal",
            NumberFault::TooManyDigits => "too many digits",
            NumberFault::TooLarge => "too large",
            NumberFault::ZeroDivisor => "zero divisor",
            NumberFault::Negative => "negative",
        },
    );
}

/// The ends of an interval, or its fault.
fn put_ends(out: &mut String, answer: Result<Interval, NumberFault>) {
    match answer {
        Ok(interval) => {
            put_number(out, &interval.lo);
            put(out, " ");
            put_number(out, &interval.hi);
        }
        Err(fault) => put_fault(out, fault),
    }
}

/// The interval of a decimal's text.
fn interval(text: &str) -> Result<Interval, NumberFault> {
    match read_decimal(text.as_bytes()) {
        Ok(decimal) => Ok(interval_of(decimal)),
        Err(fault) => Err(fault),
    }
}

/// The interval of a decimal's text, or that between two.
fn operand(text: &str) -> Result<Interval, NumberFault> {
    match text.split_once("..") {
        Some((low, high)) => between(interval(low)?, interval(high)?),
        None => interval(text),
    }
}

/// The interval from the one to the other.
fn between(low: Interval, high: Interval) -> Result<Interval, NumberFault> {
    if low.lo <= high.hi {
        Ok(Interval {
            lo: low.lo,
            hi: high.hi,
        })
    } else {
        Err(NumberFault::Negative)
    }
}

/// What an operation answers that is not on 0 to 1 alone.
fn applied(operation: &str, a: Interval, b: Interval) -> Result<Interval, NumberFault> {
    match operation {
        "+" => add(a, b),
        "-" => sub(a, b),
        "*" => mul(a, b),
        "/" => div(a, b),
        "exponential" => exponential(a, b),
        "neg" => Ok(neg(a)),
        _ => Err(NumberFault::NotDecimal),
    }
}

/// Whether the interval is within 0 and 1.
fn is_in_unit(a: Interval) -> bool
    ensures { OnTrue result (IsInUnit a) }
{
    0 <= a.lo && a.hi <= i128::from(UNITS)
}

/// What an operation on 0 to 1 answers; that on any other interval is told as it stands.
fn applied_in_unit(operation: &str, a: Interval, b: Interval) -> Interval {
    if operation == "clamp" && a.lo <= i128::from(UNITS) && 0 <= a.hi {
        return clamp_unit(a);
    }
    if !is_in_unit(a) || !is_in_unit(b) {
        return a;
    }
    match operation {
        "times" => times_in_unit(a, b),
        "plus" => add_in_unit(a, b),
        "complement" => complement(a),
        _ => a,
    }
}

/// What the operation between two texts answers.
fn answer(left: &str, operation: &str, right: &str) -> Result<Interval, NumberFault> {
    let a = operand(left)?;
    let b = operand(right)?;
    match operation {
        "clamp" | "times" | "plus" | "complement" => Ok(applied_in_unit(operation, a, b)),
        _ => applied(operation, a, b),
    }
}

/// What a call answers: `read DECIMAL`, or `LEFT OPERATION RIGHT`, where one operand is enough for some.
pub fn put_answer(out: &mut String, call: &str) {
    if let Some(text) = call.strip_prefix("read ") {
        match read_decimal(text.as_bytes()) {
            Ok(decimal) => put_decimal(out, decimal),
            Err(fault) => put_fault(out, fault),
        }
        return;
    }
    let (left, rest) = call.split_once(' ').unwrap_or((call, ""));
    let (operation, right) = rest.split_once(' ').unwrap_or((rest, "0"));
    if left == "print" {
        put_printed(out, operation.parse::<i128>().unwrap_or(0));
    } else {
        put_ends(out, answer(left, operation, right));
    }
}

/// Units as they are printed.
fn put_printed(out: &mut String, units: i128) {
    if units.unsigned_abs() <= MAX_END {
        put(out, print_units(units).as_str());
    }
}
