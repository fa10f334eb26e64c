use std::marker::Model;

/// The numbers from `lo` to `hi`, both ends included, in units of 10^-12. `lo <= hi`, and both ends are
/// at most `MAX_END` units in magnitude.
#[derive(Clone, Copy, Debug, PartialEq, Eq)]
pub struct Interval {
    pub lo: i128,
    pub hi: i128,
}

impl Model for Interval {
    ghost use Rattle.psa_number.specs.Ends.{Ends, IsInterval};

    ghost Value = { Ends };

    ghost view = { λ i. record { lo = i.lo; hi = i.hi } };

    ghost inverse = { λ e. record { lo = e.lo; hi = e.hi } };

    ghost invariant = { λ i. IsInterval i.lo i.hi };
}
