ghost use Rattle.std.specs.Prelude.{◌≡◌, ◌≤◌, ℕ, Bool, true, false, List, [], ◌∷◌, Some, None, length, if◌then◌else◌, IsTrue};
ghost use Rattle.psa_logic.specs.Products.{IsListing};
ghost use Rattle.psa_model.specs.Literals.{literals_of};
ghost use Rattle.psa_nodes.specs.declared.node.Kind.TheVariants.{Zbdd};
ghost use Rattle.psa_nodes.specs.Readings.{has, stands};
ghost use Rattle.psa_products.specs.Products.{product_of};
ghost use Rattle.psa_products.specs.Rules.{IsRuled, AllCallable, AllAnswered, AllAnswered-prop, IsNextKept, kept};
ghost use Rattle.psa_products.specs.Walks.{to_come, IsWalk};

use crate::rule::Rule;
use crate::walk::Walk;
use psa_model::{MAX_ORDER, Product};
use psa_nodes::{NodeId, NodeTable, Steps};
use std::marker::Model;
use std::sync::ledger::Ledger;

/// The members of a family that a rule keeps, as a `Listing` gives them, one at a time: from one to the next only
/// the literals that differ are touched. It takes no memory, and keeps at most 32 nodes and literals.
/// Contracts see the literals of the product where it stands, and the products that are still to come, each as its
/// literal numbers.
#[derive(Drop)]
pub struct Lister<'a, R: Rule> {
    walk: Walk<'a>,
    rule: R,
    ghost answered: { AllAnswered (λ set. R.says rule (product_of set)) (to_come walk) } by { AllAnswered-prop (λ set. R.says rule (product_of set)) (to_come walk) },
}

impl<'a, R: Rule> Model for Lister<'a, R> {
    ghost use Rattle.psa_products.specs.Products.{Listed, product_of};
    ghost use Rattle.psa_products.specs.Rules.{AllCallable, kept};
    ghost use Rattle.psa_products.specs.Walks.{to_come, IsWalk};

    ghost Value = { Listed };

    ghost view = { λ l. record {
      product = l.walk.product.items;
      rest = kept (λ set. R.says l.rule (product_of set)) (to_come l.walk) l.answered;
    } };

    ghost invariant = { λ l. IsWalk l.walk
        × AllCallable (λ set. R.may l.rule (product_of set)) (to_come l.walk) };
}

/// Goes to the next member of a walk that a rule keeps; false where none is left.
fn next_kept<R: Rule, L: Ledger>(walk: &mut Walk<'_>, rule: &R, steps: &mut Steps<L>) -> bool
    requires walk { IsWalk walk.old }
    requires callable { AllCallable (λ set. R.may rule.now (product_of set)) (to_come walk.old) }
    ensures walk { IsWalk walk.new }
    ensures next { IsNextKept (λ set. R.says rule.now (product_of set))
        (to_come walk.old) (to_come walk.new) (if result then Some walk.new.product else None) }
{
    while walk.advance(steps) {
        if rule.keeps(walk.product()) {
            return true;
        }
    }
    false
}

impl<'a, R: Rule> Lister<'a, R> {
    /// The members of a family that the rule keeps. No member has more than `limit` literals, and the rule may
    /// be called on each and has exactly one answer there. It stands before the first.
    pub fn new(table: &'a NodeTable, root: NodeId, limit: u8, rule: R) -> Lister<'a, R>
        requires root { stands Zbdd 0 table.now.nodes root.0 ≡ true }
        requires limit { limit ≤ MAX_ORDER }
        requires within { (set : List ℕ) → has table.now.nodes root.0 set ≡ true
            → length set ≤ limit }
        requires rule { (set : List ℕ) → has table.now.nodes root.0 set ≡ true
            → IsRuled (λ one. R.may rule (product_of one))
            (λ one. R.says rule (product_of one)) set }
        ensures listing { (keeps : List ℕ → Bool)
            → ((set : List ℕ) → has table.now.nodes root.0 set ≡ true
            → R.says rule (product_of set) (keeps set))
            → IsListing (λ set. (has table.now.nodes root.0 set ≡ true) × (keeps set ≡ true))
            result.rest }
    {
        let walk = Walk::new(table, root, limit);
        Lister { walk, rule }
    }

    /// Goes to the next product: of those that have not been given, the first in the order of a report; false where
    /// all were given.
    pub fn advance<L: Ledger>(&mut self, steps: &mut Steps<L>) -> bool
        ensures some { IsTrue result → self.old.rest ≡ literals_of self.new.product ∷ self.new.rest }
        ensures none { result ≡ false → (self.old.rest ≡ []) × (self.new.rest ≡ []) }
    {
        next_kept(&mut self.walk, &self.rule, steps)
    }

    /// The product where it stands.
    pub fn product(&self) -> &Product
        ensures { result.now.items ≡ self.now.product }
    {
        self.walk.product()
    }
}
