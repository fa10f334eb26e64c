/// The number 1 in units: a unit is 10^-12.
pub const UNITS: u64 = 1_000_000_000_000;

/// 10^6: the root of `UNITS`.
pub(crate) const MILLION: u64 = 1_000_000;

/// 10^18 units: no end of an interval is past it in magnitude.
pub const MAX_END: u128 = 1_000_000_000_000_000_000;

/// No decimal is past it in magnitude.
pub const MAX_DECIMAL: u32 = 1_000_000;

/// The most digits of a decimal before its exponent.
pub const MAX_DIGITS: usize = 36;

/// The most digits of an exponent.
pub const MAX_EXPONENT_DIGITS: usize = 4;

/// The exponent that a decimal is spelled with is at most this, and at least the negative of it.
pub const MAX_EXPONENT: i16 = 99;

/// The number of the last term of a Taylor sum.
pub const MAX_TERM: u64 = 160;

/// The place, in units, from which on 1 - exp(-x) is 1 in all 12 digits.
pub const MAX_PLACE: u128 = 28_000_000_000_000;
