//! Nodes by their triples, as `0(T,1(T,F))`: the variable, and in parentheses the node where it occurs and the
//! other. `T` and `F` are the true and the false diagram, `U` the family of the empty set and `E` that of none.
ghost use Rattle.std.specs.Prelude.{◌≡◌};
ghost use Rattle.psa_nodes.specs.Nodes.{IsBounded};

use crate::making::{bdd, zbdd};
use psa_nodes::{Kind, NodeError, NodeId, NodeTable, Steps};
use std::alloc::Global;
use std::process::Abort;
use std::sync::ledger::Ledger;

/// The nodes that were read and are not yet in a triple, each variable in front of its two, and the number that
/// is being read.
#[derive(Drop)]
struct Reading {
    stack: Vec<u64>,
    number: u64,
}

impl Reading {
    fn push(&mut self, value: u64) {
        let _left_out = self.stack.push(value);
    }

    fn pop(&mut self) -> u64 {
        self.stack.pop().unwrap_or(0)
    }
}

/// The node of the triple that ends.
fn made<L: Ledger>(
    rt: &impl Abort,
    table: &mut NodeTable,
    kind: Kind,
    reading: &mut Reading,
    steps: &mut Steps<L>,
) -> Result<NodeId, NodeError>
    requires { IsBounded table.old.nodes }
    ensures { IsBounded table.new.nodes }
{
    let lo = NodeId(reading.pop());
    let hi = NodeId(reading.pop());
    let var = u32::try_from(reading.pop()).unwrap_or(u32::MAX);
    match kind {
        Kind::Bdd => bdd(rt, table, var, hi, lo, steps),
        Kind::Zbdd => zbdd(rt, table, var, hi, lo, steps),
    }
}

/// Goes on at a sign that ends no triple.
fn note(reading: &mut Reading, sign: u8) {
    match sign {
        b'T' | b'U' => reading.push(NodeId::TRUE.0),
        b'F' | b'E' => reading.push(NodeId::FALSE.0),
        b'(' => {
            reading.push(reading.number);
            reading.number = 0;
        }
        b'0'..=b'9' => {
            let tens = reading.number.saturating_mul(10);
            reading.number = tens.saturating_add(u64::from(sign % 16));
        }
        _ => {}
    }
}

/// The node of the kind that a text stands for.
pub fn node<L: Ledger>(
    rt: &impl Abort,
    alloc: Global,
    table: &mut NodeTable,
    kind: Kind,
    text: &str,
    steps: &mut Steps<L>,
) -> Result<NodeId, NodeError>
    requires { IsBounded table.old.nodes }
    ensures { IsBounded table.new.nodes }
{
    let mut reading = Reading {
        stack: Vec::new(alloc),
        number: 0,
    };
    for sign in text.as_bytes() {
        if *sign == b')' {
            let node = made(rt, table, kind, &mut reading, steps)?;
            reading.push(node.0);
        } else {
            note(&mut reading, *sign);
        }
    }
    Ok(NodeId(reading.pop()))
}
