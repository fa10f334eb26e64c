use thiserror::Error;

/// Why a number is refused.
#[derive(Clone, Copy, Debug, PartialEq, Eq, Error)]
pub enum NumberFault {
    /// The text is not spelled as a decimal number.
    #[error("not a decimal number")]
    NotDecimal,
    /// Too many digits stand before the exponent, or the exponent is too large in magnitude.
    #[error("too many digits")]
    TooManyDigits,
    /// The magnitude is past what a decimal or an interval can hold.
    #[error("the number is too large")]
    TooLarge,
    /// The divisor may be 0.
    #[error("the divisor may be zero")]
    ZeroDivisor,
    /// The rate or the time is below 0 everywhere.
    #[error("the number is negative")]
    Negative,
}
