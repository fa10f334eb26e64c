ghost use Rattle.std.specs.Prelude.{◌≡◌, ◌<◌, ◌≤◌, ℕ, true, List, All, IfOk, IfSome, int_le, length, pos};
ghost use Rattle.psa_nodes.specs.declared.node.Kind.TheVariants.{Zbdd};
ghost use Rattle.psa_nodes.specs.Readings.{has, stands};
ghost use Rattle.psa_model.specs.declared.product.TheConstants.{MAX_ORDER};
ghost use Rattle.psa_products.specs.Products.{product_of};
ghost use Rattle.psa_products.specs.Rules.{IsRuled};
ghost use Rattle.psa_number.specs.Operations.{IsInUnit};
ghost use Rattle.psa_model.specs.Literals.{literals_of};
ghost use Rattle.psa_listing_tests.specs.Kept.{upper_end};

use crate::families::{LITERALS, bit_of, expect_family, expect_order, long_family, small_family};
use psa_model::{EventNumber, Literal, Product, Ranks, Values};
use psa_nodes::{NodeError, NodeId, NodeTable, Steps};
use psa_number::{Interval, UNITS};
use psa_products::{Bounds, Listing, Rule, bound};
use psa_text::{Items, OutOfMemory};
use std::alloc::Global;
use std::marker::Brand;
use std::process::Abort;
use std::sync::ledger::{Blank, Ledger};

/// The number of products over the literals of the small families.
const PRODUCTS: u32 = 32;

/// The greatest number of literals of any product.
const LONGEST: u8 = 32;

/// An eighth of a probability of 1.
const EIGHTH: u64 = UNITS / 8;

/// The probabilities of the literals of the small families, in eighths.
const EIGHTHS: [u64; 5] = [4, 4, 2, 6, 1];

/// The intervals of three events of the probabilities 4, 2 and 1 eighths.
fn three_values(alloc: Global) -> Result<Values, OutOfMemory>
    ensures { IfOk result (All IsInUnit) }
{
    let mut values = Items::new(alloc);
    values.push(Interval {
        lo: 500_000_000_000,
        hi: 500_000_000_000,
    })?;
    values.push(Interval {
        lo: 250_000_000_000,
        hi: 250_000_000_000,
    })?;
    values.push(Interval {
        lo: 125_000_000_000,
        hi: 125_000_000_000,
    })?;
    Ok(values)
}

/// As many ranks, of the events of the same number.
fn three_ranks(alloc: Global) -> Result<Ranks, OutOfMemory> {
    let mut ranks = Items::new(alloc);
    for number in 0..3 {
        ranks.push(EventNumber(number))?;
    }
    Ok(ranks)
}

/// The upper end of the bound of a product.
fn upper_bound(values: &Values, ranks: &Ranks, product: &Product) -> i128
    requires { All IsInUnit values.now }
    ensures { result ≡ upper_end values.now ranks.now (literals_of product.now.items) }
{
    bound(values, ranks, product).hi
}

/// The upper end of the bound of the small product with this number: none of its factors is rounded.
fn upper_of(number: u32) -> i128 {
    let mut upper = UNITS;
    for (literal, eighths) in EIGHTHS.iter().enumerate() {
        if number & bit_of(literal as u32) != 0 {
            upper = (upper / 8).wrapping_mul(*eighths);
        }
    }
    i128::from(upper)
}

/// The number of a small product. Stops unless its literals are ascending.
fn number_of(rt: &impl Abort, product: &Product) -> u32 {
    let mut number = 0;
    let mut least = 0;
    for literal in product.as_slice() {
        assert!(rt; literal.rank < LITERALS);
        let of_literal = 2 * literal.rank + u32::from(!literal.occurs);
        assert!(rt; least <= of_literal && of_literal < LITERALS);
        least = of_literal + 1;
        number |= bit_of(of_literal);
    }
    number
}

/// Stops unless the listing gives the small products whose bits are set and whose bound reaches `least`, by
/// their number of literals and then from the greatest number on.
fn expect_small<R: Rule, L: Ledger>(
    rt: &impl Abort,
    listing: &mut Listing<'_, R>,
    members: u32,
    least: u64,
    steps: &mut Steps<L>,
) {
    for order in 0..=LITERALS {
        for number in (0..PRODUCTS).rev() {
            let is_member = members.wrapping_shr(number) & 1 == 1;
            if is_member && number.count_ones() == order && i128::from(least) <= upper_of(number) {
                let found = listing.next(steps).map(|product| number_of(rt, &product));
                assert_eq!(rt; found, Some(number), "{members}");
            }
        }
    }
}

/// Stops unless the listing gives the product of the long family.
fn expect_long<R: Rule, L: Ledger>(
    rt: &impl Abort,
    listing: &mut Listing<'_, R>,
    steps: &mut Steps<L>,
) {
    let product = listing.next(steps).expect(rt, "a product");
    assert_eq!(rt; product.len(), usize::from(LONGEST));
    for (rank, literal) in product.as_slice().iter().enumerate() {
        assert_eq!(rt; literal.rank as usize, rank);
        assert_eq!(rt; literal.occurs, rank % 2 == 0);
    }
}

/// What is asked of a listing: its limit, the least upper end that its rule keeps, and the small products that
/// are members, none of them for the long family.
#[derive(Clone, Copy)]
struct Question {
    limit: u8,
    least: u64,
    members: Option<u32>,
}

/// Stops unless exactly the expected products are listed.
fn expect_products<R: Rule, L: Ledger>(
    rt: &impl Abort,
    table: &NodeTable,
    family: NodeId,
    rule: R,
    question: Question,
    steps: &mut Steps<L>,
)
    requires root { stands Zbdd 0 table.now.nodes family.0 ≡ true }
    requires limit { question.limit ≤ MAX_ORDER }
    requires within { (set : List ℕ) → has table.now.nodes family.0 set ≡ true
        → length set ≤ question.limit }
    requires rule { (set : List ℕ) → has table.now.nodes family.0 set ≡ true
        → IsRuled (λ one. R.may rule (product_of one)) (λ one. R.says rule (product_of one)) set }
{
    let mut listing = Listing::new(table, family, question.limit, rule);
    match question.members {
        Some(members) => expect_small(rt, &mut listing, members, question.least, steps),
        None => expect_long(rt, &mut listing, steps),
    }
    assert!(rt; listing.next(steps).is_none());
    assert!(rt; listing.next(steps).is_none());
}

/// The same by the question's rule.
fn expect_listed<L: Ledger>(
    rt: &impl Abort,
    table: &NodeTable,
    family: NodeId,
    events: (&Values, &Ranks),
    question: Question,
    steps: &mut Steps<L>,
)
    requires { All IsInUnit events.0.now }
{
    let (values, ranks) = events;
    let least = question.least;
    assert!(rt; question.limit <= LONGEST);
    expect_family(rt, table, 0, family, steps);
    expect_order(rt, table, family, question.limit, steps);
    let keeps = |product: &Product| -> bool
        requires { All IsInUnit values.now }
        ensures { result ≡ int_le (pos least)
            (upper_end values.entry.now ranks.entry.now (literals_of product.entry.now.items)) }
    { i128::from(least) <= upper_bound(values, ranks, product) };
    expect_products(rt, table, family, keeps, question, steps);
}

/// Lists a small family by rules that keep all of its members, some by their bounds, and none.
fn lists_small<L: Ledger>(
    rt: &impl Abort,
    table: &mut NodeTable,
    events: (&Values, &Ranks),
    members: u32,
    steps: &mut Steps<L>,
) -> Result<(), NodeError>
    requires { All IsInUnit events.0.now }
{
    let family = small_family(rt, table, LITERALS, members, steps)?;
    for least in [0, 93_750_000_000, 93_750_000_001, 1_000_000_000_001] {
        for limit in [5, LONGEST] {
            let question = Question {
                limit,
                least,
                members: Some(members),
            };
            expect_listed(rt, table, family, events, question, steps);
        }
    }
    Ok(())
}

/// The bound of a product alone, where there are intervals.
fn bound_alone(values: &Option<Values>, ranks: &Ranks, product: &Product) -> Option<Interval>
    requires { IfSome values.now (All IsInUnit) }
{
    match values {
        Some(values) => Some(bound(values, ranks, product)),
        None => None,
    }
}

/// The product of the small literals whose bits are set.
fn product_with(number: u32) -> Product {
    let mut product = Product::new();
    for literal in 0..LITERALS {
        if number & bit_of(literal) != 0 {
            let _pushed = product.try_push(Literal {
                rank: literal / 2,
                occurs: literal % 2 == 0,
            });
        }
    }
    product
}

/// Stops unless the bounds of products one after another are those of each alone.
fn expect_bounds(rt: &impl Abort, values: &Option<Values>, ranks: &Ranks)
    requires { IfSome values.now (All IsInUnit) }
{
    let mut bounds = Bounds::new(values, ranks);
    let mut number = 1;
    for _round in 0..300 {
        number = scrambled(number);
        let product = product_with(number);
        let together = bounds.bound(&product);
        assert_eq!(rt; together, bound_alone(values, ranks, &product));
    }
}

/// The next number of a sequence without a pattern (Marsaglia's xorshift).
fn scrambled(number: u32) -> u32 {
    let number = number ^ number.wrapping_shl(13);
    let number = number ^ number.wrapping_shr(17);
    number ^ number.wrapping_shl(5)
}

/// The empty family, that of the empty product, all products, 100 dense and 100 sparse families, and one of a
/// product of 32 literals.
fn lists_families<L: Ledger>(
    rt: &impl Abort,
    table: &mut NodeTable,
    events: (&Values, &Ranks),
    blank: Blank,
) -> Result<(), NodeError>
    requires name { blank.name ≡ L.name }
    requires parts { blank.parts ≡ L.parts }
    requires some { 0 < blank.parts }
    requires values { All IsInUnit events.0.now }
{
    let mut steps = Steps::<L>::begin(blank);
    for members in [0, 1, u32::MAX] {
        lists_small(rt, table, events, members, &mut steps)?;
    }
    let mut dense = 1;
    for _round in 0..100 {
        let other = scrambled(dense);
        dense = scrambled(other);
        lists_small(rt, table, events, dense, &mut steps)?;
        lists_small(
            rt,
            table,
            events,
            dense & other & scrambled(dense),
            &mut steps,
        )?;
    }
    let family = long_family(rt, table, u32::from(LONGEST), &mut steps)?;
    let question = Question {
        limit: LONGEST,
        least: 0,
        members: None,
    };
    expect_listed(rt, table, family, events, question, &mut steps);
    Ok(())
}

#[test]
fn families_are_listed(rt: HostRuntime) {
    let values = three_values(rt.alloc()).expect(&rt, "memory");
    let ranks = three_ranks(rt.alloc()).expect(&rt, "memory");
    let mut table = NodeTable::new(rt.alloc());
    let answer = lists_families::<Brand>(&rt, &mut table, (&values, &ranks), Blank::new(1));
    assert_eq!(rt; answer, Ok(()));
}

#[test]
fn bounds_are_kept(rt: HostRuntime) {
    let ranks = three_ranks(rt.alloc()).expect(&rt, "memory");
    let values = Some(three_values(rt.alloc()).expect(&rt, "memory"));
    expect_bounds(&rt, &values, &ranks);
    expect_bounds(&rt, &None, &ranks);
}
