ghost use Rattle.std.specs.Prelude.{◌≡◌, ◌<◌};
ghost use Rattle.psa_nodes.specs.Nodes.{IsBounded};

use crate::making::{Call, answer, bdd, node_of};
use psa_nodes::{Kind, NodeError, NodeId, NodeTable, Steps};
use std::process::Abort;
use std::sync::ledger::{Blank, Ledger};

/// The sets of three events, as bits.
const SETS: u8 = 8;

/// A product over three events: the events of its literals, and those of them that occur.
#[derive(Clone, Copy)]
struct Product {
    events: u8,
    occurring: u8,
}

/// Whether a truth, as the bits of its values at the eight sets, holds at a set.
fn is_true_at(truth: u8, set: u8) -> bool {
    truth.wrapping_shr(u32::from(set)) & 1 == 1
}

/// Whether the truth holds at each set at which the product does.
fn is_implicant(truth: u8, product: Product) -> bool {
    for set in 0..SETS {
        if set & product.events == product.occurring {
            if !is_true_at(truth, set) {
                return false;
            }
        }
    }
    true
}

/// The number of literals.
fn order(product: Product) -> u8 {
    (product.events & 1) + (product.events / 2 & 1) + (product.events / 4 & 1)
}

/// Whether the product is an implicant, and none with one literal less is.
fn is_prime(truth: u8, product: Product) -> bool {
    if !is_implicant(truth, product) {
        return false;
    }
    for bit in [1, 2, 4] {
        if product.events & bit != 0 {
            let less = Product {
                events: product.events & !bit,
                occurring: product.occurring & !bit,
            };
            if is_implicant(truth, less) {
                return false;
            }
        }
    }
    true
}

/// Whether the family has the product, by one step for each literal number.
fn has<L: Ledger>(
    rt: &impl Abort,
    table: &NodeTable,
    family: NodeId,
    product: Product,
    steps: &mut Steps<L>,
) -> bool {
    let mut id = family;
    for (literal, events) in [(0, 1), (1, 1), (2, 2), (3, 2), (4, 4), (5, 4)] {
        let occurs = product.occurring & events != 0;
        let taken = product.events & events != 0 && occurs == (literal % 2 == 0);
        match node_of(rt, table, Kind::Zbdd, id, steps) {
            Some(node) if node.var == literal => id = if taken { node.hi } else { node.lo },
            _ => {
                if taken {
                    return false;
                }
            }
        }
    }
    id == NodeId::UNIT
}

/// The diagram of a truth over three events.
fn diagram<L: Ledger>(
    rt: &impl Abort,
    table: &mut NodeTable,
    truth: u8,
    steps: &mut Steps<L>,
) -> Result<NodeId, NodeError>
    requires { IsBounded table.old.nodes }
    ensures { IsBounded table.new.nodes }
{
    let hi = side(rt, table, truth, 1, steps)?;
    let lo = side(rt, table, truth, 0, steps)?;
    bdd(rt, table, 0, hi, lo, steps)
}

/// Its side with a set of event 0.
fn side<L: Ledger>(
    rt: &impl Abort,
    table: &mut NodeTable,
    truth: u8,
    set: u8,
    steps: &mut Steps<L>,
) -> Result<NodeId, NodeError>
    requires { IsBounded table.old.nodes }
    ensures { IsBounded table.new.nodes }
{
    let hi = last_side(rt, table, truth, set | 2, steps)?;
    let lo = last_side(rt, table, truth, set, steps)?;
    bdd(rt, table, 1, hi, lo, steps)
}

/// The side of that with a set of events 0 and 1.
fn last_side<L: Ledger>(
    rt: &impl Abort,
    table: &mut NodeTable,
    truth: u8,
    set: u8,
    steps: &mut Steps<L>,
) -> Result<NodeId, NodeError>
    requires { IsBounded table.old.nodes }
    ensures { IsBounded table.new.nodes }
{
    let hi = constant(is_true_at(truth, set | 4));
    let lo = constant(is_true_at(truth, set));
    bdd(rt, table, 2, hi, lo, steps)
}

fn constant(value: bool) -> NodeId {
    if value { NodeId::TRUE } else { NodeId::FALSE }
}

/// Stops unless the family has exactly the products of at most `limit` literals that are prime implicants.
fn expect_all<L: Ledger>(
    rt: &impl Abort,
    table: &NodeTable,
    family: NodeId,
    truth: u8,
    limit: u8,
    steps: &mut Steps<L>,
) {
    for events in 0..SETS {
        for occurring in 0..SETS {
            if occurring & !events == 0 {
                let product = Product { events, occurring };
                let expected = order(product) <= limit && is_prime(truth, product);
                let found = has(rt, table, family, product, steps);
                assert!(rt; found == expected);
            }
        }
    }
}

/// Each truth over three events, within a limit.
pub fn every_truth<L: Ledger>(
    rt: &impl Abort,
    table: &mut NodeTable,
    limit: u8,
    blank: Blank,
) -> Result<(), NodeError>
    requires name { blank.name ≡ L.name }
    requires parts { blank.parts ≡ L.parts }
    requires some { 0 < blank.parts }
    requires bounded { IsBounded table.old.nodes }
{
    let mut steps = Steps::<L>::begin(blank);
    for truth in 0..=u8::MAX {
        let root = diagram(rt, table, truth, &mut steps)?;
        let family = answer(rt, table, Call::Primes, limit, root, root, &mut steps)?;
        expect_all(rt, table, family, truth, limit, &mut steps);
    }
    Ok(())
}
