// Decimals, intervals of numbers, and the exponential between two bounds.
#![tactic(auto)]

mod arithmetic;
mod decimal;
mod fault;
mod interval;
mod limits;
mod printing;
mod reading;
mod scaling;
mod taylor;
mod unit;

pub use arithmetic::{add, div, mul, neg, sub};
pub use decimal::Decimal;
pub use fault::NumberFault;
pub use interval::Interval;
pub use limits::{
    MAX_DECIMAL, MAX_DIGITS, MAX_END, MAX_EXPONENT, MAX_EXPONENT_DIGITS, MAX_PLACE, MAX_TERM, UNITS,
};
pub use printing::print_units;
pub use reading::read_decimal;
pub use scaling::interval_of;
pub use taylor::exponential;
pub use unit::{add_in_unit, clamp_unit, complement, times_in_unit};
