ghost use Rattle.std.specs.Prelude.{◌≡◌, ◌<◌, ℕ, length, get_or};
ghost use Rattle.psa_model.specs.Literals.{literals_of};
ghost use Rattle.psa_number.specs.Operations.{IsInUnit};
ghost use Rattle.psa_shares.specs.EventShares.{EventShare, HasPlaces, no_share, share_with, share_if};
ghost use Rattle.psa_shares.specs.Shares.{holds_event};

use psa_model::{Literal, MAX_COUNT};
use psa_number::{Interval, add_in_unit};
use std::marker::Model;

/// The share of an event in the rare-event sum, in units of 10^-12: the number of the products that hold it, held at
/// `MAX_COUNT`, and the sum of their bounds, held at 1.
#[derive(Clone, Copy)]
pub struct Share {
    pub count: u64,
    pub sum: Interval,
}

impl Model for Share {
    ghost use Rattle.psa_shares.specs.EventShares.{EventShare, IsShare};

    ghost Value = { EventShare };

    ghost view = { λ s. record { count = s.count; sum = s.sum } };

    ghost inverse = { λ s. record { count = s.count; sum = s.sum } };

    ghost invariant = { λ s. IsShare (record { count = s.count; sum = s.sum }) };
}

impl Share {
    /// That of no product.
    pub fn new() -> Share
        ensures { result ≡ no_share }
    {
        Share {
            count: 0,
            sum: Interval { lo: 0, hi: 0 },
        }
    }

    /// That with one more product, which has this bound.
    fn with(self, bound: Interval) -> Share
        requires { IsInUnit bound }
        ensures { result ≡ share_with self bound }
    {
        Share {
            count: (self.count + 1).min(MAX_COUNT),
            sum: add_in_unit(self.sum, bound),
        }
    }
}

/// Takes a product with its bound into the share of each event that it holds. The share of an event stands at the place
/// of its rank.
pub fn take_product(shares: &mut [Share], product: &[Literal], bound: Interval)
    requires places { HasPlaces (length shares.old) (literals_of product.now) }
    requires in_unit { IsInUnit bound }
    ensures count { length shares.new ≡ length shares.old }
    ensures each { (rank : ℕ) (default : EventShare) → rank < length shares.old
        → get_or shares.new rank default
        ≡ share_if (holds_event rank (literals_of product.now)) (get_or shares.old rank default) bound }
{
    for literal in product {
        let place = literal.rank as usize;
        shares[place] = shares[place].with(bound);
    }
}
