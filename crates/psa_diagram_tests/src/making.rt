ghost use Rattle.std.specs.Prelude.{◌≡◌, true, OnOk};
ghost use Rattle.psa_nodes.specs.Readings.{stands};
ghost use Rattle.psa_nodes.specs.Nodes.{IsBounded};

use psa_bdd::{and, or};
use psa_families::{minimal_sets, positive_part, union, without};
use psa_nodes::{
    Kind, MAX_LITERAL_NUMBERS, MAX_RANKS, Node, NodeError, NodeId, NodeTable, Steps, TERMINALS,
};
use psa_prime::primes_of_bdd;
use psa_zbdd::{minimal_of_bdd, product};
use std::process::Abort;
use std::sync::ledger::Ledger;

/// The node of the kind at an id, None for a terminal. Stops where neither is there.
pub fn node_of<L: Ledger>(
    rt: &impl Abort,
    table: &NodeTable,
    kind: Kind,
    id: NodeId,
    steps: &mut Steps<L>,
) -> Option<Node> {
    expect_node(rt, table, kind, 0, id, steps);
    if id.is_terminal() {
        return None;
    }
    Some(table.node(id, steps))
}

/// Stops unless an id is a terminal or a node of the kind with a variable of at least `from`.
pub fn expect_node<L: Ledger>(
    rt: &impl Abort,
    table: &NodeTable,
    kind: Kind,
    from: u32,
    id: NodeId,
    steps: &mut Steps<L>,
)
    ensures { stands kind from table.now.nodes id.0 ≡ true }
{
    let nodes = table.len();
    if id.0 < TERMINALS {
        return;
    }
    assert!(rt; id.0 - TERMINALS < nodes);
    let node = table.node(id, steps);
    assert!(rt; node.kind == kind);
    assert!(rt; from <= node.var);
}

/// The decision diagram of a triple.
pub fn bdd<L: Ledger>(
    rt: &impl Abort,
    table: &mut NodeTable,
    var: u32,
    hi: NodeId,
    lo: NodeId,
    steps: &mut Steps<L>,
) -> Result<NodeId, NodeError>
    requires { IsBounded table.old.nodes }
    ensures { IsBounded table.new.nodes }
{
    assert!(rt; var < MAX_RANKS);
    expect_node(rt, table, Kind::Bdd, var + 1, hi, steps);
    expect_node(rt, table, Kind::Bdd, var + 1, lo, steps);
    table.bdd_node(var, hi, lo)
}

/// The family of a triple.
pub fn zbdd<L: Ledger>(
    rt: &impl Abort,
    table: &mut NodeTable,
    var: u32,
    hi: NodeId,
    lo: NodeId,
    steps: &mut Steps<L>,
) -> Result<NodeId, NodeError>
    requires { IsBounded table.old.nodes }
    ensures { IsBounded table.new.nodes }
{
    assert!(rt; var < MAX_LITERAL_NUMBERS);
    expect_node(rt, table, Kind::Zbdd, var + 1, hi, steps);
    expect_node(rt, table, Kind::Zbdd, var + 1, lo, steps);
    table.zbdd_node(var, hi, lo)
}

/// A public call on nodes, and what it has as operands.
#[derive(Clone, Copy)]
pub enum Call {
    And,
    Or,
    Union,
    Without,
    Product,
    Positive,
    Minimal,
    Cuts,
    Primes,
    /// No call: the node of decision diagrams itself.
    Bdd,
    /// No call: the node of families itself.
    Zbdd,
}

impl Call {
    /// The kind of the operands.
    pub fn operands(self) -> Kind {
        match self {
            Call::And | Call::Or | Call::Cuts | Call::Primes | Call::Bdd => Kind::Bdd,
            _ => Kind::Zbdd,
        }
    }

    /// The kind of the answer.
    pub fn answer(self) -> Kind {
        match self {
            Call::And | Call::Or | Call::Bdd => Kind::Bdd,
            _ => Kind::Zbdd,
        }
    }
}

/// What a call on decision diagrams answers.
fn of_diagrams<L: Ledger>(
    rt: &impl Abort,
    table: &mut NodeTable,
    call: Call,
    limit: u8,
    left: NodeId,
    right: NodeId,
    steps: &mut Steps<L>,
) -> Result<NodeId, NodeError>
    requires { IsBounded table.old.nodes }
    ensures { IsBounded table.new.nodes }
{
    expect_node(rt, table, Kind::Bdd, 0, left, steps);
    expect_node(rt, table, Kind::Bdd, 0, right, steps);
    match call {
        Call::And => and(table, left, right, steps),
        Call::Or => or(table, left, right, steps),
        Call::Cuts => minimal_of_bdd(table, left, limit, steps),
        Call::Primes => primes_of_bdd(table, left, limit, steps),
        _ => Ok(left),
    }
}

/// What a call on families answers.
fn of_families<L: Ledger>(
    rt: &impl Abort,
    table: &mut NodeTable,
    call: Call,
    limit: u8,
    left: NodeId,
    right: NodeId,
    steps: &mut Steps<L>,
) -> Result<NodeId, NodeError>
    requires { IsBounded table.old.nodes }
    ensures { IsBounded table.new.nodes }
{
    expect_node(rt, table, Kind::Zbdd, 0, left, steps);
    expect_node(rt, table, Kind::Zbdd, 0, right, steps);
    match call {
        Call::Union => union(table, left, right, steps),
        Call::Without => without(table, left, right, steps),
        Call::Product => product(table, left, right, limit, steps),
        Call::Positive => positive_part(table, left, steps),
        Call::Minimal => minimal_sets(table, left, steps),
        _ => Ok(left),
    }
}

/// What a call answers of operands and a limit; one that it does not have is not looked at.
pub fn answer<L: Ledger>(
    rt: &impl Abort,
    table: &mut NodeTable,
    call: Call,
    limit: u8,
    left: NodeId,
    right: NodeId,
    steps: &mut Steps<L>,
) -> Result<NodeId, NodeError>
    requires { IsBounded table.old.nodes }
    ensures { IsBounded table.new.nodes }
{
    match call.operands() {
        Kind::Bdd => of_diagrams(rt, table, call, limit, left, right, steps),
        Kind::Zbdd => of_families(rt, table, call, limit, left, right, steps),
    }
}
