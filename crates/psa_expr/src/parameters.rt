ghost use Rattle.std.specs.Prelude.{◌≡◌, ◌<◌, ◌⊎◌, ℕ, Some, None, IfOk, length};
ghost use Rattle.psa_number.specs.Ends.{Ends};
ghost use Rattle.psa_expr.specs.Answers.{recorded};

use psa_model::ParameterId;
use psa_number::Interval;
use psa_text::{Items, OutOfMemory};
use sqlite_items::at;
use std::alloc::Global;

/// The values of the parameters that are known so far, by their places.
pub type Known = Items<Option<Interval>>;

/// No value yet for each of so many parameters.
pub fn unknown(alloc: Global, parameters: usize) -> Result<Known, OutOfMemory>
    ensures { IfOk result (λ known. (place : ℕ) → recorded known place ≡ None) }
{
    let mut known = Items::new(alloc);
    for _ in 0..parameters {
        known.push(None)?;
    }
    Ok(known)
}

/// The value of the parameter, where it is known.
pub fn value_of(known: &Known, id: ParameterId) -> Option<Interval>
    ensures { result ≡ recorded known.now id.0 }
{
    match at(known.as_slice(), id.0 as usize) {
        Some(value) => *value,
        None => None,
    }
}

/// Records the value of a parameter.
pub fn record_value(known: &mut Known, id: ParameterId, value: Interval)
    ensures only { (place : ℕ) (a : Ends) → recorded known.new place ≡ Some a
        → (recorded known.old place ≡ Some a) ⊎ ((place ≡ id.0) × (a ≡ value)) }
    ensures told { id.0 < length known.old → recorded known.new id.0 ≡ Some value }
{
    let place = id.0 as usize;
    if place < known.len() {
        known.set(place, Some(value));
    }
}
