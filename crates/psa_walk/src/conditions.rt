ghost use Rattle.std.specs.Prelude.{◌≡◌};
ghost use Rattle.std.specs.List.{list_all, list_any};
ghost use Rattle.psa_model.specs.Tests.{is_true_in};

use crate::travelled::Travelled;
use psa_model::{InitiatingId, Test};

/// Whether the test is true in the walk of an initiating event at this place of a path.
#[cycle(condition)]
pub fn holds(test: &Test, initiating: InitiatingId, travelled: &Travelled) -> bool
    ensures { result ≡ is_true_in initiating.0 travelled.now.forks test.now }
{
    match test {
        Test::Initiating(id) => id.0 == initiating.0,
        Test::Functional { name, state } => travelled.took(name, state),
        Test::All(tests) => all_hold(tests.as_slice(), initiating, travelled),
        Test::Any(tests) => any_holds(tests.as_slice(), initiating, travelled),
        Test::Not(tests) => !any_holds(tests.as_slice(), initiating, travelled),
    }
}

/// Whether all tests are true.
#[cycle(condition)]
fn all_hold(tests: &[Test], initiating: InitiatingId, travelled: &Travelled) -> bool
    ensures { result
        ≡ list_all (λ test. is_true_in initiating.0 travelled.now.forks test) tests.now }
{
    for test in tests {
        if !holds(test, initiating, travelled) {
            return false;
        }
    }
    true
}

/// Whether some test is true.
#[cycle(condition)]
fn any_holds(tests: &[Test], initiating: InitiatingId, travelled: &Travelled) -> bool
    ensures { result
        ≡ list_any (λ test. is_true_in initiating.0 travelled.now.forks test) tests.now }
{
    for test in tests {
        if holds(test, initiating, travelled) {
            return true;
        }
    }
    false
}
