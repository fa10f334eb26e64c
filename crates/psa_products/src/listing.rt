ghost use Rattle.std.specs.Prelude.{◌≡◌, ◌≤◌, ℕ, Bool, true, List, [], ◌∷◌, length, IfSome, IfNone};
ghost use Rattle.psa_logic.specs.Products.{IsListing};
ghost use Rattle.psa_model.specs.Literals.{literals_of};
ghost use Rattle.psa_nodes.specs.declared.node.Kind.TheVariants.{Zbdd};
ghost use Rattle.psa_nodes.specs.Readings.{has, stands};
ghost use Rattle.psa_products.specs.Products.{product_of};
ghost use Rattle.psa_products.specs.Rules.{IsRuled};

use crate::lister::Lister;
use crate::product::copy_of;
use crate::rule::Rule;
use psa_model::{MAX_ORDER, Product};
use psa_nodes::{NodeId, NodeTable, Steps};
use std::marker::Model;
use std::sync::ledger::Ledger;

/// The members of a family that a rule keeps, in the order of a report: by their number of literals, then
/// lexicographic by literal number. It takes no memory, and keeps at most 32 nodes.
/// Contracts see the products that are still to come, each as its literal numbers.
#[derive(Drop)]
pub struct Listing<'a, R: Rule> {
    lister: Lister<'a, R>,
}

impl<'a, R: Rule> Model for Listing<'a, R> {
    ghost Value = { List (List ℕ) };

    ghost view = { λ l. l.lister.rest };
}

impl<'a, R: Rule> Listing<'a, R> {
    /// The members of a family that the rule keeps. No member has more than `limit` literals, and the rule may
    /// be called on each and has exactly one answer there.
    pub fn new(table: &'a NodeTable, root: NodeId, limit: u8, rule: R) -> Listing<'a, R>
        requires root { stands Zbdd 0 table.now.nodes root.0 ≡ true }
        requires limit { limit ≤ MAX_ORDER }
        requires within { (set : List ℕ) → has table.now.nodes root.0 set ≡ true
            → length set ≤ limit }
        requires rule { (set : List ℕ) → has table.now.nodes root.0 set ≡ true
            → IsRuled (λ one. R.may rule (product_of one))
            (λ one. R.says rule (product_of one)) set }
        ensures listing { (keeps : List ℕ → Bool)
            → ((set : List ℕ) → has table.now.nodes root.0 set ≡ true
            → R.says rule (product_of set) (keeps set))
            → IsListing (λ set. (has table.now.nodes root.0 set ≡ true) × (keeps set ≡ true))
            result }
    {
        Listing {
            lister: Lister::new(table, root, limit, rule),
        }
    }

    /// The next product: of those that have not been given, the first in the order of a report; None where all
    /// were given.
    pub fn next<L: Ledger>(&mut self, steps: &mut Steps<L>) -> Option<Product>
        ensures some { IfSome result (λ product. self.old ≡ literals_of product.items ∷ self.new) }
        ensures none { IfNone result ((self.old ≡ []) × (self.new ≡ [])) }
    {
        if !self.lister.advance(steps) {
            return None;
        }
        Some(copy_of(self.lister.product()))
    }
}
