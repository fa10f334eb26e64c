ghost use Rattle.std.specs.Prelude.{◌≡◌, ◌≤◌, ◌<◌, ◌+◌, ◌++◌, ◌∷◌, ℕ, List, [], IfSome, length, take};
ghost use Rattle.std.specs.List.{All, fold};
ghost use Rattle.std.specs.Option.{option_map};
ghost use Rattle.psa_number.specs.Ends.{Ends};
ghost use Rattle.psa_number.specs.Operations.{IsInUnit};
ghost use Rattle.psa_model.specs.declared.ids.EventNumber.{EventNumber};
ghost use Rattle.psa_model.specs.declared.product.Literal.{Literal};
ghost use Rattle.psa_model.specs.Literals.{literals_of};
ghost use Rattle.psa_model.specs.Quantities.{at_rank, bound_of, one_ends, zero_ends};
ghost use Rattle.psa_products.specs.PartialBounds.{bound_step, ArePartial};

use crate::bounds::literal_interval;
use crate::product::common_length;
use psa_model::{Literal, MAX_ORDER, Product, Ranks, Values};
use psa_number::{Interval, UNITS, times_in_unit};
use std::marker::Model;

/// The bounds of the first literals of a product, up to each literal.
#[derive(Drop)]
pub(crate) struct PartialBounds {
    literals: [Literal; MAX_ORDER],
    bounds: [Interval; MAX_ORDER],
    /// How many first places of both are of the product.
    count: usize,
}

impl PartialBounds {
    /// Those of no literal.
    fn new() -> PartialBounds
        ensures { (values : List Ends) (ranks : List EventNumber) → ArePartial values ranks result }
    {
        PartialBounds {
            literals: [Literal {
                rank: 0,
                occurs: true,
            }; MAX_ORDER],
            bounds: [Interval { lo: 0, hi: 0 }; MAX_ORDER],
            count: 0,
        }
    }

    /// Keeps those of the first literals that are also the first of these.
    fn keep(&mut self, literals: &[Literal])
        requires { self.old.count ≤ length self.old.literals }
        ensures partial { (values : List Ends) (ranks : List EventNumber)
            → ArePartial values ranks self.old → ArePartial values ranks self.new }
        ensures few { self.new.count ≤ length literals.now }
        ensures same { take self.new.count self.new.literals ≡ take self.new.count literals.now }
    {
        self.count = common_length(self.literals.split_at(self.count).0, literals);
    }

    /// The bound of all of them: 1 where there is none.
    fn last(&self, values: &Values, ranks: &Ranks) -> Interval
        requires { ArePartial values.now ranks.now self.now }
        ensures exact { result ≡ fold (bound_step values.now ranks.now) one_ends
            (take self.now.count self.now.literals) }
        ensures in_unit { IsInUnit result }
    {
        if self.count == 0 {
            let one = i128::from(UNITS);
            return Interval { lo: one, hi: one };
        }
        self.bounds[self.count - 1]
    }

    /// Takes one literal more.
    fn push(&mut self, values: &Values, ranks: &Ranks, literal: Literal)
        requires partial { ArePartial values.now ranks.now self.old }
        requires room { self.old.count < MAX_ORDER }
        requires in_unit { IsInUnit (at_rank zero_ends values.now ranks.now literal.rank) }
        ensures partial { ArePartial values.now ranks.now self.new }
        ensures count { self.new.count ≡ self.old.count + 1 }
        ensures literals { take self.new.count self.new.literals
            ≡ take self.old.count self.old.literals ++ literal ∷ [] }
    {
        let bound = times_in_unit(
            self.last(values, ranks),
            literal_interval(values, ranks, literal),
        );
        self.literals[self.count] = literal;
        self.bounds[self.count] = bound;
        self.count += 1;
    }

    /// The bound of these literals. It keeps those of the first ones, up to each.
    fn bound(&mut self, values: &Values, ranks: &Ranks, literals: &[Literal]) -> Interval
        requires partial { ArePartial values.now ranks.now self.old }
        requires few { length literals.now ≤ MAX_ORDER }
        requires in_unit { All (λ (literal : Literal).
            IsInUnit (at_rank zero_ends values.now ranks.now literal.rank)) literals.now }
        ensures partial { ArePartial values.now ranks.now self.new }
        ensures exact { result ≡ bound_of values.now ranks.now (literals_of literals.now) }
        ensures in_unit { IsInUnit result }
    {
        self.keep(literals);
        while self.count < literals.len() {
            self.push(values, ranks, literals[self.count]);
        }
        self.last(values, ranks)
    }
}

/// The bounds of products one after another, by one list of intervals and one of ranks; none where there are no
/// intervals. From a product to the next the bounds of the first literals are kept, up to the first literal that
/// differs, so that a literal that changes costs one multiplication. It takes no memory.
#[derive(Drop)]
pub struct Bounds<'a> {
    values: &'a Option<Values>,
    ranks: &'a Ranks,
    partial: PartialBounds,
}

impl<'a> Model for Bounds<'a> {
    ghost use Rattle.std.specs.Prelude.{IfSome};
    ghost use Rattle.psa_products.specs.PartialBounds.{Valuation, ArePartial};

    ghost Value = { Valuation };

    ghost view = { λ b. record { values = b.values.now; ranks = b.ranks.now } };

    ghost invariant = { λ b.
        IfSome b.values.now (λ values. ArePartial values b.ranks.now b.partial) };
}

impl<'a> Bounds<'a> {
    /// The bounds of products by these intervals, if there are any, and ranks.
    pub fn new(values: &'a Option<Values>, ranks: &'a Ranks) -> Bounds<'a>
        ensures { result ≡ record { values = values.now; ranks = ranks.now } }
    {
        Bounds {
            values,
            ranks,
            partial: PartialBounds::new(),
        }
    }

    /// The bound of a product, as `bound` gives it, where there are intervals. Those of its events have to be within
    /// 0 and 1.
    pub fn bound(&mut self, product: &Product) -> Option<Interval>
        requires { IfSome self.old.values (λ values. All (λ (literal : Literal).
            IsInUnit (at_rank zero_ends values self.old.ranks literal.rank)) product.now.items) }
        ensures same { self.new ≡ self.old }
        ensures exact { result ≡ option_map (λ values.
            bound_of values self.old.ranks (literals_of product.now.items)) self.old.values }
        ensures in_unit { IfSome result IsInUnit }
    {
        match self.values {
            Some(values) => Some(self.partial.bound(values, self.ranks, product.as_slice())),
            None => None,
        }
    }
}
