ghost use Rattle.std.specs.Prelude.{◌≡◌, ◌≤◌, pos, false};

use crate::limits::MAX_DECIMAL;
use std::marker::Model;

/// The exact number `digits * 10^exponent`, below 0 where `negative`. The digits are at most
/// `MAX_DIGITS` in number, the exponent is at most `MAX_EXPONENT` and at least the negative of the
/// two together, and the magnitude is at most `MAX_DECIMAL`.
#[derive(Clone, Copy, Debug, PartialEq, Eq)]
pub struct Decimal {
    pub negative: bool,
    pub digits: u128,
    pub exponent: i16,
}

impl Model for Decimal {
    ghost use Rattle.psa_number.specs.Scaled.{Scaled, IsDecimal};

    ghost Value = { Scaled };

    ghost view = { λ d. record { negative = d.negative; digits = d.digits; exponent = d.exponent } };

    ghost inverse = { λ s. record { negative = s.negative; digits = s.digits; exponent = s.exponent } };

    ghost invariant = { λ d. IsDecimal d.digits d.exponent };
}

impl Decimal {
    /// The whole number `value`.
    pub fn from_whole(value: u32) -> Decimal
        requires { value ≤ MAX_DECIMAL }
        ensures { result ≡ record { negative = false; digits = value; exponent = pos 0 } }
    {
        Decimal {
            negative: false,
            digits: u128::from(value),
            exponent: 0,
        }
    }
}
