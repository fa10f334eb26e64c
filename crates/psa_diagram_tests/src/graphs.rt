ghost use Rattle.std.specs.Prelude.{◌≡◌, ◌<◌, ◌≤◌, ℕ, length, reverse, IfOk};
ghost use Rattle.psa_graph.specs.Truths.{IsNodeBehind, AreChildrenFirst, IsGraph};
ghost use Rattle.psa_nodes.specs.Nodes.{IsBounded};
ghost use Rattle.psa_nodes.specs.declared.node.TheConstants.{MAX_RANKS};

use crate::making::{Call, answer};
use psa_bdd::build;
use psa_graph::{Graph, GraphNode};
use psa_nodes::{NodeError, NodeTable, Steps};
use psa_zbdd::minimal_of_graph;
use sqlite_items::Items;
use std::alloc::Global;
use std::process::Abort;
use std::sync::ledger::{Blank, Ledger};

/// The number of events of the truths, and of their sets.
const EVENTS: u32 = 3;

const SETS: u8 = 8;

/// Stops unless a node names places before its own and an event that is there.
fn expect_behind(rt: &impl Abort, place: u64, node: GraphNode)
    ensures { IsNodeBehind EVENTS place node }
{
    match node {
        GraphNode::Constant(_) => {}
        GraphNode::Literal { rank, .. } => {
            assert!(rt; rank < EVENTS);
        }
        GraphNode::And(left, right) => {
            assert!(rt; left < place);
            assert!(rt; right < place);
        }
        GraphNode::Or(left, right) => {
            assert!(rt; left < place);
            assert!(rt; right < place);
        }
    }
}

/// Adds a node to those of a graph; its place.
fn add(rt: &impl Abort, nodes: &mut Items<GraphNode>, node: GraphNode) -> Result<u64, NodeError>
    requires { AreChildrenFirst EVENTS (reverse nodes.old) }
    ensures { AreChildrenFirst EVENTS (reverse nodes.new) }
{
    let place = nodes.len() as u64;
    expect_behind(rt, place, node);
    nodes.push(node)?;
    Ok(place)
}

/// The conjunction, or the disjunction, of the nodes at two places.
fn joined(both: bool, left: u64, right: u64) -> GraphNode {
    if both {
        GraphNode::And(left, right)
    } else {
        GraphNode::Or(left, right)
    }
}

/// The conjunction of the literals that hold at a set of events alone, or the disjunction of those that do not.
fn literals(
    rt: &impl Abort,
    nodes: &mut Items<GraphNode>,
    set: u8,
    both: bool,
) -> Result<u64, NodeError>
    requires { AreChildrenFirst EVENTS (reverse nodes.old) }
    ensures { AreChildrenFirst EVENTS (reverse nodes.new) }
{
    let first = GraphNode::Literal {
        rank: 0,
        occurs: (set & 1 == 1) == both,
    };
    let second = GraphNode::Literal {
        rank: 1,
        occurs: (set & 2 == 2) == both,
    };
    let third = GraphNode::Literal {
        rank: 2,
        occurs: (set & 4 == 4) == both,
    };
    let one = add(rt, nodes, first)?;
    let two = add(rt, nodes, second)?;
    let pair = add(rt, nodes, joined(both, one, two))?;
    let three = add(rt, nodes, third)?;
    add(rt, nodes, joined(both, pair, three))
}

/// A graph of a truth over three events: for each set at which it holds the literals that hold there, or for
/// each other set one that does not.
fn graph_of(rt: &impl Abort, alloc: Global, truth: u8, sets: bool) -> Result<Graph, NodeError>
    ensures { IfOk result (λ graph. (IsGraph graph) × (graph.width ≡ EVENTS)) }
{
    let mut nodes = Items::new(alloc);
    let mut root = add(rt, &mut nodes, GraphNode::Constant(!sets))?;
    for set in 0..SETS {
        if (truth.wrapping_shr(u32::from(set)) & 1 == 1) == sets {
            let term = literals(rt, &mut nodes, set, sets)?;
            root = add(rt, &mut nodes, joined(!sets, root, term))?;
        }
    }
    assert!(rt; root < nodes.len() as u64);
    Ok(Graph {
        nodes,
        root,
        width: EVENTS,
    })
}

/// Stops unless both ways to the minimal cut sets of a graph answer the same node.
fn expect_same<L: Ledger>(
    rt: &impl Abort,
    alloc: Global,
    table: &mut NodeTable,
    graph: &Graph,
    limit: u8,
    steps: &mut Steps<L>,
) -> Result<(), NodeError>
    requires graph { IsGraph graph.now }
    requires width { graph.now.width ≤ MAX_RANKS }
    requires bounded { IsBounded table.old.nodes }
    ensures { IsBounded table.new.nodes }
{
    let root = build(alloc, table, graph, steps)?;
    let by_graph = minimal_of_graph(alloc, table, graph, limit, steps)?;
    let by_diagram = answer(rt, table, Call::Cuts, limit, root, root, steps)?;
    assert!(rt; by_graph == by_diagram);
    Ok(())
}

/// Each truth over three events by a graph of either form, within a limit, on one table.
pub fn every_graph<L: Ledger>(
    rt: &impl Abort,
    alloc: Global,
    table: &mut NodeTable,
    limit: u8,
    blank: Blank,
) -> Result<(), NodeError>
    requires name { blank.name ≡ L.name }
    requires parts { blank.parts ≡ L.parts }
    requires some { 0 < blank.parts }
    requires bounded { IsBounded table.old.nodes }
{
    let mut steps = Steps::<L>::begin(blank);
    for truth in 0..=u8::MAX {
        let of_sets = graph_of(rt, alloc, truth, true)?;
        expect_same(rt, alloc, table, &of_sets, limit, &mut steps)?;
        let of_others = graph_of(rt, alloc, truth, false)?;
        expect_same(rt, alloc, table, &of_others, limit, &mut steps)?;
    }
    Ok(())
}
