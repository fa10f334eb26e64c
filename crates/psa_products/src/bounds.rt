ghost use Rattle.std.specs.Prelude.{◌≡◌, ◌≤◌, ℕ, Ok};
ghost use Rattle.std.specs.List.{All};
ghost use Rattle.psa_logic.specs.Products.{literal_number};
ghost use Rattle.psa_number.specs.Exponential.{last_term};
ghost use Rattle.psa_number.specs.Fraction.{Holds};
ghost use Rattle.psa_number.specs.Operations.{IsInUnit};
ghost use Rattle.psa_number.specs.Scaled.{Scaled};
ghost use Rattle.psa_model.specs.declared.expanded.Expanded.{Expanded};
ghost use Rattle.psa_model.specs.declared.product.Literal.{Literal};
ghost use Rattle.psa_model.specs.ExactQuantities.{exact_bound};
ghost use Rattle.psa_model.specs.Literals.{literals_of};
ghost use Rattle.psa_model.specs.Quantities.{at_rank, bound_of, literal_ends, zero_ends};
ghost use Rattle.psa_model.specs.Values.{quantities_of, values_of};

use psa_model::{Literal, Product, Ranks, Values};
use psa_number::{Interval, UNITS, complement, times_in_unit};

/// The interval of the event with a rank; 0 where no such event has one.
fn event_interval(values: &Values, ranks: &Ranks, rank: u32) -> Interval
    ensures { result ≡ at_rank zero_ends values.now ranks.now rank }
{
    let Some(number) = ranks.get(rank as usize) else {
        return Interval { lo: 0, hi: 0 };
    };
    match values.get(number.0 as usize) {
        Some(interval) => *interval,
        None => Interval { lo: 0, hi: 0 },
    }
}

/// The interval of a literal: that of its event, or its complement.
pub(crate) fn literal_interval(values: &Values, ranks: &Ranks, literal: Literal) -> Interval
    requires { IsInUnit (at_rank zero_ends values.now ranks.now literal.rank) }
    ensures exact { result
        ≡ literal_ends values.now ranks.now (literal_number literal.rank literal.occurs) }
    ensures in_unit { IsInUnit result }
{
    let interval = event_interval(values, ranks, literal.rank);
    if literal.occurs {
        interval
    } else {
        complement(interval)
    }
}

/// The bound of a product: the product of its literals' intervals, in order, in units of 10^-12. The intervals
/// of its events have to be within 0 and 1.
pub fn bound(values: &Values, ranks: &Ranks, product: &Product) -> Interval
    requires { All (λ (literal : Literal).
        IsInUnit (at_rank zero_ends values.now ranks.now literal.rank)) product.now.items }
    ensures exact { result ≡ bound_of values.now ranks.now (literals_of product.now.items) }
    ensures in_unit { IsInUnit result }
    ensures holds { (terms : ℕ) → last_term ≤ terms → (mission : Scaled) (expanded : Expanded)
        → values_of mission expanded ≡ Ok values.now
        → Holds result (exact_bound (quantities_of terms mission expanded) ranks.now
        (literals_of product.now.items)) }
{
    let one = i128::from(UNITS);
    let mut bound = Interval { lo: one, hi: one };
    for literal in product.as_slice() {
        bound = times_in_unit(bound, literal_interval(values, ranks, *literal));
    }
    bound
}
