ghost use Rattle.std.specs.Prelude.{◌≡◌, ◌≤◌, ◌<◌, ◌+◌, ◌*◌, ◌^◌, ℕ, List, Option, Some, None, true, length, option_map, IfSome, if◌then◌else◌};
ghost use Rattle.std.specs.List.{list_all};
ghost use Rattle.std.specs.Char.{is_ascii_digit};
ghost use Rattle.std.specs.Str.Parse.{digits_value, digits_value_after};
ghost use Rattle.psa_number.specs.DecimalText.{are_digits as all_digits, is_within};
ghost use Rattle.psa_words.specs.Answer.{Answers};
ghost use Rattle.psa_words.specs.Given.{decimal_that, default_mission, is_fraction as is_fraction_of, is_not_below_zero, is_whole_number, optional_value, value_or, whole_between as whole_of};

use crate::WordsError;
use crate::limits::{
    DEFAULT_LIMIT_ORDER, DEFAULT_MISSION_TIME, MAX_DIGITS, MAX_LIMIT_ORDER, MAX_NODE_LIMIT,
};
use psa_number::{Decimal, read_decimal};

/// The order limit that the text spells, at least 1, or the default where it is not given.
pub fn limit_order(text: Option<&str>) -> Result<u8, WordsError>
    ensures { Answers
        (value_or DEFAULT_LIMIT_ORDER (whole_of 1 MAX_LIMIT_ORDER)
        (option_map (λ s. s.now) text.entry))
        result }
{
    let Some(text) = text else {
        return Ok(DEFAULT_LIMIT_ORDER);
    };
    let limit = whole_between(1, MAX_LIMIT_ORDER, text).ok_or(WordsError::BadWords)?;
    Ok(limit as u8)
}

/// The cutoff, a decimal from 0 to 1, if it is given.
pub fn cut_off(text: Option<&str>) -> Result<Option<Decimal>, WordsError>
    ensures { Answers
        (optional_value (decimal_that is_fraction_of) (option_map (λ s. s.now) text.entry))
        result }
{
    let Some(text) = text else {
        return Ok(None);
    };
    let value = read_decimal(text.as_bytes())?;
    if is_fraction(value) {
        Ok(Some(value))
    } else {
        Err(WordsError::BadWords)
    }
}

/// The mission time, a decimal of at least 0, or the default where it is not given.
pub fn mission_time(text: Option<&str>) -> Result<Decimal, WordsError>
    ensures { Answers
        (value_or default_mission (decimal_that is_not_below_zero)
        (option_map (λ s. s.now) text.entry))
        result }
{
    let Some(text) = text else {
        return Ok(Decimal::from_whole(DEFAULT_MISSION_TIME));
    };
    let value = read_decimal(text.as_bytes())?;
    if is_at_least_zero(value) {
        Ok(value)
    } else {
        Err(WordsError::BadWords)
    }
}

/// The limit of nodes, at least 1, if it is given.
pub fn node_limit(text: Option<&str>) -> Result<Option<u64>, WordsError>
    ensures { Answers
        (optional_value (whole_of 1 MAX_NODE_LIMIT) (option_map (λ s. s.now) text.entry))
        result }
{
    let Some(text) = text else {
        return Ok(None);
    };
    let limit = whole_between(1, MAX_NODE_LIMIT, text).ok_or(WordsError::BadWords)?;
    Ok(Some(limit))
}

/// The whole number that the text spells in digits, one to `MAX_DIGITS`, if it is from `least` to `most`.
pub fn whole_between(least: u64, most: u64, text: &str) -> Option<u64>
    ensures { result ≡ whole_of least most text.now }
{
    let digits = text.as_bytes();
    if digits.is_empty() || digits.len() > MAX_DIGITS || !are_digits(digits) {
        return None;
    }
    let value = value_of_digits(digits);
    if least <= value && value <= most {
        Some(value)
    } else {
        None
    }
}

/// Whether each byte is a digit.
fn are_digits(text: &[u8]) -> bool
    ensures { result ≡ all_digits text.now }
{
    text.iter().all(|b| b.is_ascii_digit())
}

/// The number that the digits spell.
fn value_of_digits(digits: &[u8]) -> u64
    requires only_digits { all_digits digits.now ≡ true }
    requires few { length digits.now ≤ MAX_DIGITS }
    ensures { result ≡ digits_value 10 digits.now }
{
    let mut value = 0;
    for &digit in digits {
        value = value * 10 + u64::from(digit - b'0');
    }
    value
}

/// Whether the number is at least 0; -0 is.
fn is_at_least_zero(value: Decimal) -> bool
    ensures { result ≡ is_not_below_zero value }
{
    !value.negative || value.digits == 0
}

/// Whether the number is from 0 to 1.
fn is_fraction(value: Decimal) -> bool
    ensures { result ≡ is_fraction_of value }
{
    is_at_least_zero(value) && is_at_most_one(value)
}

/// Whether the number is at most 1, whatever its sign.
fn is_at_most_one(value: Decimal) -> bool
    ensures { result ≡ is_within 1 value.digits value.exponent }
{
    let exponent = value.exponent;
    if exponent > 0 {
        value.digits == 0
    } else if exponent < -36 {
        true
    } else {
        value.digits <= 10u128.pow(-exponent as u32)
    }
}
